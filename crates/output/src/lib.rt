// Standard output as the programs write to it. A write that fails is let go, and what comes after it is tried all the same: so a program whose output
// nobody takes any more (`| head`, a full disk) goes on to its end, and its exit status says nothing of it. What is printed is gathered in few
// bytes, since most of it is short. Of the C library nothing is asked but `write`.
#![tactic(auto)]

ghost use Rattle.std.specs.Prelude.{IsOk};

use std::fmt;
use std::fmt::{Display, Write};
use std::io::Result;

const STDOUT_FILENO: i32 = 1;

// What one print gathers before it writes.
const ROOM: usize = 128;

// The answer of a print is always that all was written. All else is asked of the runtime.
#[derive(Clone, Copy)]
pub struct Output<'a, R>(pub &'a R);

impl<R> Print for Output<'_, R> {
    fn print<D: Display + Drop>(&self, value: D) -> Result<()>
        ensures { IsOk result }
    {
        let mut gathered = Gathered::new();
        let _ = write!(gathered, "{value}");
        gathered.pass_on();
        Ok(())
    }

    fn println<D: Display + Drop>(&self, value: D) -> Result<()>
        ensures { IsOk result }
    {
        let mut gathered = Gathered::new();
        let _ = write!(gathered, "{value}\n");
        gathered.pass_on();
        Ok(())
    }

    fn write_all(&self, bytes: &[u8]) -> Result<()>
        ensures { IsOk result }
    {
        io::write_all(STDOUT_FILENO, bytes);
        Ok(())
    }
}

impl<R: Eprint> Eprint for Output<'_, R> {
    fn eprint<D: Display + Drop>(&self, value: D) -> Result<()> {
        self.0.eprint(value)
    }

    fn eprintln<D: Display + Drop>(&self, value: D) -> Result<()> {
        self.0.eprintln(value)
    }
}

#[derive(Clone, Copy)]
struct Gathered {
    room: [u8; ROOM],
    // How many bytes of the room are gathered.
    length: usize,
}

impl Gathered {
    fn new() -> Self {
        Gathered {
            room: [0; ROOM],
            length: 0,
        }
    }

    // Writes what is gathered.
    fn pass_on(&mut self) {
        let n = self.length;
        self.length = 0;
        if n <= ROOM {
            io::write_all(STDOUT_FILENO, &self.room[..n]);
        }
    }
}

impl Write for Gathered {
    fn write_str(&mut self, text: &str) -> fmt::Result {
        let text = text.as_bytes();
        let n = self.length;
        if n <= ROOM && text.len() <= ROOM - n {
            self.room[n..n + text.len()].copy_from_slice(text);
            self.length = n + text.len();
        } else {
            self.pass_on();
            io::write_all(STDOUT_FILENO, text);
        }
        Ok(())
    }
}
