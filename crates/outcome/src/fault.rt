// The answer to the question why a table is damaged, told in plain numbers (ticket 5 of 02).
ghost use Rattle.outcome.specs.FaultInNumbers.{ToldFault};

use rules::fault::Fault;

// Gives 0 and slot 0 for a sound table, or the number of the broken rule and the slot.
// Kept: the call for C lends a place for the slot (primal_c).
pub fn tell(fault: Option<Fault>, slot: &mut u16) -> u16
    ensures { ToldFault fault result slot.new }
{
    match fault {
        None => {
            *slot = 0;
            0
        }
        Some(fault) => {
            *slot = fault.slot.0;
            u16::from(fault.rule)
        }
    }
}
