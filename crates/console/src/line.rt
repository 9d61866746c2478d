// Reading a line at a time.
ghost use Rattle.std.specs.Prelude.{◌≡◌, None, IfOk, IfSome, OnOk, vec_len};
ghost use Rattle.std.specs.Borrow.{sem};
ghost use Rattle.std.specs.Io.BufRead.{DropsThrough, Rests, take_through};
ghost use Rattle.std.specs.Option.{option_map};
ghost use Rattle.console.specs.Rows.{bytes_row};
ghost use Rattle.console.specs.Words.{line_in, IsOneLine};

use std::io;
use std::io::BufRead;

// The next line of `input`, without the line feed that ends it, or None at the input's end. It is read into `memory`,
// which is left empty at the end; it stands first, since what becomes of a lent vector is proved of the first parameter alone. Bytes
// after the last line feed are a line too.
pub fn read_line<'m, R: BufRead>(
    memory: &'m mut Vec<u8>,
    input: &mut R,
) -> io::Result<Option<&'m [u8]>>
    ensures line { IfSome (R.remaining input.old) (λ bytes. IfOk result (λ line. option_map (λ x. x.now) line ≡ line_in (take_through 10 bytes))) }
    ensures rest { OnOk result (DropsThrough (R.remaining input.old) (R.remaining input.new) 10) }
    ensures one_line { IfOk result (λ line. IfSome line (λ x. IsOneLine x.now)) }
    ensures* emptied { sem 𝓛 (Rests bytes_row memory.entry (λ new. IfOk result (λ line. line ≡ None → vec_len new ≡ 0))) }
{
    memory.clear();
    input.read_until(b'\n', memory)?;
    Ok(line_in(memory))
}

// The line that was read, or None where nothing was.
fn line_in(read: &[u8]) -> Option<&[u8]>
    ensures { option_map (λ x. x.now) result ≡ line_in read.now }
{
    match read {
        [] => None,
        [line @ .., b'\n'] | line => Some(line),
    }
}
