// Runs in an array of bytes, in which the run at place i begins at byte 32 * i.
ghost use Rattle.std.specs.Prelude.{◌≡◌, ◌+◌, ◌*◌, ◌≤◌, length};
ghost use Rattle.lent.specs.Bytes.{put};
ghost use Rattle.runs.specs.Bytes.{run_length, run_at, eq_bytes, lt_bytes};

// The length of a key, and of a digest.
pub const RUN_LENGTH: usize = 32;

// The run at place i.
pub fn run_at(bytes: &[u8], i: usize) -> &[u8]
    requires { run_length * i + run_length ≤ length bytes.now }
    ensures value { result.now ≡ run_at bytes.now i }
    ensures len { length result.now ≡ run_length }
{
    let at = RUN_LENGTH * i;
    &bytes[at..at + RUN_LENGTH]
}

// Whether the run at place i is the one given.
pub fn same_at(bytes: &[u8], i: usize, run: &[u8]) -> bool
    requires { run_length * i + run_length ≤ length bytes.now }
    ensures { result ≡ eq_bytes (run_at bytes.now i) run.now }
{
    run_at(bytes, i) == run
}

// Whether the run at place i comes before the one given, first byte first.
pub fn less_at(bytes: &[u8], i: usize, run: &[u8]) -> bool
    requires { run_length * i + run_length ≤ length bytes.now }
    ensures { result ≡ lt_bytes (run_at bytes.now i) run.now }
{
    // `<` goes byte by byte, and `cmp` passes equal bytes in groups: a search for a run that is held took half as long by it.
    run_at(bytes, i).cmp(&run).is_lt()
}

// One item: fills its own part of an array or a buffer.
pub fn put_item(item: &mut [u8], run: &[u8])
    requires { (length item.old ≡ run_length) × (length run.now ≡ run_length) }
    ensures { item.new ≡ run.now }
{
    item.copy_from_slice(run);
}

// Puts the run at place i.
pub fn put_run(bytes: &mut [u8], i: usize, run: &[u8])
    requires { (run_length * i + run_length ≤ length bytes.old) × (length run.now ≡ run_length) }
    ensures { bytes.new ≡ put bytes.old (run_length * i) run.now }
{
    lent::bytes::copy_at(bytes, RUN_LENGTH * i, run);
}
