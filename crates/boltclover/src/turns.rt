// What the program does with a tape, on slices, without its input and output.
ghost use Rattle.tape.specs.Program.{TakesTurn};

use table::Table;
use tape::turn;
use tape::turn::{Turn, TurnEnd};

// One turn of the program: a run of the tape in the lent bytes.
pub fn take_turn(t: &mut Table, tape: &[u8], out: &mut [u8]) -> Turn
    ensures { TakesTurn t.old out.old tape.now result t.new out.new }
{
    match primal::run(t, tape, out, turn::allowance()) {
        Ok(run) => {
            let end = TurnEnd::from(run.stop);
            let written = turn::close(out, run.written, end);
            Turn {
                end,
                handled: run.handled,
                written,
                unread: run.rest.len(),
            }
        }
        Err(refused) => Turn {
            end: TurnEnd::NotSound,
            handled: 0,
            written: 0,
            unread: refused.rest.len(),
        },
    }
}
