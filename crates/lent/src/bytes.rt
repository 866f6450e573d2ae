// Runs of bytes, copied into a lent buffer.
ghost use Rattle.std.specs.Prelude.{◌≡◌, ◌+◌, ◌≤◌, length};
ghost use Rattle.lent.specs.Bytes.{put, put_within};

// Copies src into out from at on; the other bytes stay. A run that does not fit there leaves out as it was.
pub fn put_at(out: &mut [u8], at: usize, src: &[u8])
    ensures { out.new ≡ put_within out.old at src.now }
{
    if src.len() <= out.len() && at <= out.len() - src.len() {
        copy_at(out, at, src);
    }
}

// The same for a run that fits, for those who have seen to it.
pub fn copy_at(out: &mut [u8], at: usize, src: &[u8])
    requires { at + length src.now ≤ length out.old }
    ensures { out.new ≡ put out.old at src.now }
{
    // No `copy_from_slice`: where the compiler does not know the length it is the C library's memmove, which a caller of the archive would have
    // to bring.
    for j in 0..src.len() {
        out[at + j] = src[j];
    }
}
