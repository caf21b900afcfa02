//! Texts written piece by piece, and the fields that requests and replies share.

ghost use Rattle.std.specs.List.{flat_map};
ghost use Rattle.roster_base.specs.Faults.{HasCause};
ghost use Rattle.outside_ports.specs.Written.{Writes};
ghost use Rattle.http_wire.specs.Replies.{echo_line, echo_text, number_line};

use itoa::Buffer;
use outside_ports::{Failed, Sink};
use status_info::Echo;

/// Writes pieces, one behind the other.
pub(crate) fn write_pieces<W: Sink>(sink: &mut W, pieces: &[&str]) -> Result<(), Failed>
    ensures bytes { Writes (W.written sink.old) (W.written sink.new) (flat_map (λ p. p.now) pieces.now) result }
    ensures cause { HasCause (W.faults sink.old) (W.faults sink.new) result }
{
    for piece in pieces {
        sink.write_all(piece.as_bytes())?;
    }
    Ok(())
}

/// A field with a number, where there is one.
#[tactic(auto, unfolding(crate::specs::Replies::number_line))]
pub(crate) fn write_number_line<W: Sink>(
    sink: &mut W,
    name: &str,
    number: Option<u64>,
) -> Result<(), Failed>
    ensures bytes { Writes (W.written sink.old) (W.written sink.new) (number_line name.now number) result }
    ensures cause { HasCause (W.faults sink.old) (W.faults sink.new) result }
{
    let Some(number) = number else {
        return Ok(());
    };
    let mut digits = Buffer::new();
    write_pieces(sink, &[name, digits.format(number), "\r\n"])
}

// The field with the number of an exchange: that of its run, and its own in the run.
#[tactic(auto, unfolding(crate::specs::Replies::echo_text))]
fn write_echo<W: Sink>(sink: &mut W, run: u64, count: u64) -> Result<(), Failed>
    ensures bytes { Writes (W.written sink.old) (W.written sink.new) (echo_text run count) result }
    ensures cause { HasCause (W.faults sink.old) (W.faults sink.new) result }
{
    let mut run_digits = Buffer::new();
    let mut count_digits = Buffer::new();
    write_pieces(
        sink,
        &[
            "X-Hub-Exchange: ",
            run_digits.format(run),
            ".",
            count_digits.format(count),
            "\r\n",
        ],
    )
}

/// The field with the number of the exchange, where there is one.
pub(crate) fn write_echo_line<W: Sink>(sink: &mut W, echo: Option<Echo>) -> Result<(), Failed>
    ensures bytes { Writes (W.written sink.old) (W.written sink.new) (echo_line echo) result }
    ensures cause { HasCause (W.faults sink.old) (W.faults sink.new) result }
{
    match echo {
        Some(echo) => write_echo(sink, echo.run, echo.count),
        None => Ok(()),
    }
}
