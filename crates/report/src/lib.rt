// Prints ends and refusals, a line each, into a buffer that the caller hands over. Nothing is allocated.

#![tactic(auto)]

ghost use Rattle.std.specs.Prelude.{◌≡◌, ◌+◌, ◌≤◌, ◌++◌};
ghost use Rattle.arrayvec.specs.ArrayString.{array_string_len};
ghost use Rattle.report.specs.Decimals.{decimal, DecimalsWrite};
ghost use Rattle.report.specs.Lines.{end_line, declined_line, Printed};

use arrayvec::ArrayString;
use itoa::Buffer;
use refusal::{End, Refusal};

// A line while it is made, with room for the longest. Its parts are appended by calls that cannot fail where there is room;
// `write!` into it would do the same, but no clause says that it succeeds.
type Line = ArrayString<64>;

// Prints the line and the column of an end.
pub fn print_end(end: End, buffer: &mut [u8]) -> Result<usize, Refusal>
    ensures printed { Printed (end_line end) buffer.old buffer.new result }
    ensures decimals { DecimalsWrite }
{
    let mut line = Line::new();
    push_number(&mut line, end.line);
    line.push(' ');
    push_number(&mut line, end.column);
    line.push('\n');
    print(line.as_str(), buffer)
}

// Prints the number and the place of a refusal. The place is 0 where it has none.
pub fn print_declined(refusal: Refusal, buffer: &mut [u8]) -> Result<usize, Refusal>
    ensures printed { Printed (declined_line refusal) buffer.old buffer.new result }
    ensures decimals { DecimalsWrite }
{
    let mut line = Line::new();
    line.push_str("declined ");
    push_number(&mut line, usize::from(refusal.number()));
    line.push(' ');
    push_number(&mut line, refusal.place().unwrap_or(0));
    line.push('\n');
    print(line.as_str(), buffer)
}

// Appends the number in decimal.
#[tactic(auto, using(crate::proofs::Decimals::same_decimal))]
fn push_number(line: &mut Line, n: usize)
    requires { array_string_len line.old + 20 ≤ 64 }
    ensures bytes { line.new.bytes ≡ line.old.bytes ++ decimal n }
    ensures most { array_string_len line.new ≤ array_string_len line.old + 20 }
{
    line.push_str(Buffer::new().format(n));
}

// Copies the line to the buffer's front.
fn print(line: &str, buffer: &mut [u8]) -> Result<usize, Refusal>
    ensures { Printed line.now buffer.old buffer.new result }
{
    if buffer.len() < line.len() {
        return Err(Refusal::BufferTooShort);
    }
    buffer[..line.len()].copy_from_slice(line.as_bytes());
    Ok(line.len())
}

#[cfg(test)]
mod tests {
    use super::*;

    fn at(line: usize, column: usize) -> End {
        End {
            line,
            column,
            position: 7,
        }
    }

    #[test]
    fn bytes_behind_the_line_stay(rt: HostRuntime) {
        let mut buffer = *b"??????";
        assert_eq!(rt; print_end(at(1, 3), &mut buffer), Ok(4));
        assert_eq!(rt; buffer, *b"1 3\n??");
    }

    #[test]
    fn the_buffer_is_just_long_enough(rt: HostRuntime) {
        let mut buffer = *b"??????????????";
        assert_eq!(rt; print_end(at(1_000_000_000, 10), &mut buffer), Ok(14));
        assert_eq!(rt; buffer, *b"1000000000 10\n");
    }

    #[test]
    fn the_buffer_is_a_byte_too_short(rt: HostRuntime) {
        let mut buffer = *b"????";
        assert_eq!(rt;
            print_end(at(10, 0), &mut buffer),
            Err(Refusal::BufferTooShort)
        );
        assert_eq!(rt; buffer, *b"????");
        assert_eq!(rt; print_end(at(9, 0), &mut buffer), Ok(4));
        assert_eq!(rt; buffer, *b"9 0\n");
    }

    #[test]
    fn the_largest_numbers(rt: HostRuntime) {
        let mut buffer = [b'?'; 42];
        assert_eq!(rt; print_end(at(usize::MAX, usize::MAX), &mut buffer), Ok(42));
        assert_eq!(rt; buffer, *b"18446744073709551615 18446744073709551615\n");
    }

    #[test]
    fn a_refusal_without_a_place(rt: HostRuntime) {
        let mut buffer = *b"???????????????";
        assert_eq!(rt;
            print_declined(Refusal::RecordingTooLong, &mut buffer),
            Ok(14)
        );
        assert_eq!(rt; buffer, *b"declined 13 0\n?");
    }

    #[test]
    fn a_refusal_with_a_place(rt: HostRuntime) {
        let refusal = Refusal::UnexpectedToken { at: 5 };
        let mut buffer = *b"?????????????";
        assert_eq!(rt; print_declined(refusal, &mut buffer), Ok(13));
        assert_eq!(rt; buffer, *b"declined 4 5\n");
        let mut short = *b"????????????";
        assert_eq!(rt;
            print_declined(refusal, &mut short),
            Err(Refusal::BufferTooShort)
        );
        assert_eq!(rt; short, *b"????????????");
    }
}
