// The public calls for C and Rust, as `include/boltclover.h` declares them. Each passes its arguments to the call of the same
// name in `primal` and tells the answer in numbers. A slice is a pointer and a length.
// Kept: what a call takes and gives back is as C declares it, the numbers each by its place.
#![tactic(auto)]

ghost use Rattle.std.specs.Prelude.{◌≡◌, [], ◌∷◌};
ghost use Rattle.table.specs.Words.{table_of};
ghost use Rattle.record.specs.Records.{conflict_from, virtual_from, expansion_from};
ghost use Rattle.record.specs.declared.request.Request.TheVariants as Q;
ghost use Rattle.rules.specs.Sound.{sound};
ghost use Rattle.rules.specs.Fault.{first_fault};
ghost use Rattle.outcome.specs.Partner.{partner_of};
ghost use Rattle.outcome.specs.PartnerInNumbers.{ToldPartner};
ghost use Rattle.outcome.specs.FaultInNumbers.{ToldFault};
ghost use Rattle.outcome.specs.Numbered.{Called, CalledWithSide, WasReset, WasMade, one_if, Run};

use outcome::numbered;
use slot::Node;
use table::Table;

#[unsafe(no_mangle)]
pub extern "C" fn boltclover_make(table: &mut Table, begin: u16) -> u16
    ensures { WasMade table.old begin result table.new }
{
    let answer = primal::make(table, begin);
    refusal::answer_number(answer)
}

#[unsafe(no_mangle)]
pub extern "C" fn boltclover_reset(table: &mut Table) -> u16
    ensures { WasReset table.old result table.new }
{
    let answer = primal::reset(table);
    refusal::answer_number(answer)
}

#[unsafe(no_mangle)]
pub extern "C" fn boltclover_sound(table: &Table) -> u16
    ensures { result ≡ one_if (sound (table_of table.now)) }
{
    if primal::is_sound(table) { 1 } else { 0 }
}

// Gives 0 for a sound table, or the number of the rule that fails, 1 to 8.
#[unsafe(no_mangle)]
pub extern "C" fn boltclover_fault(table: &Table, slot: &mut u16) -> u16
    ensures { ToldFault (first_fault (table_of table.now)) result slot.new }
{
    let answer = primal::fault(table);
    outcome::fault::tell(answer, slot)
}

#[unsafe(no_mangle)]
pub extern "C" fn boltclover_conflict(
    table: &mut Table,
    node_1: u16,
    node_2: u16,
    touch_1: u16,
    touch_2: u16,
    vertex_1: u32,
    vertex_2: u32,
    out: &mut [u8],
    written: &mut usize,
    side: &mut u16,
) -> u16
    ensures { CalledWithSide (Q.Conflict (conflict_from (node_1 ∷ node_2 ∷ touch_1 ∷ touch_2 ∷ vertex_1 ∷ vertex_2 ∷ []))) table.old out.old result side.new written.new table.new out.new }
{
    let request = numbered::conflict(node_1, node_2, touch_1, touch_2, vertex_1, vertex_2);
    let answer = primal::conflict(table, out, request);
    numbered::tell_side(answer, side);
    numbered::tell(answer, written)
}

#[unsafe(no_mangle)]
pub extern "C" fn boltclover_virtual_conflict(
    table: &mut Table,
    node: u16,
    touch: u16,
    vertex: u32,
    virtual_vertex: u32,
    out: &mut [u8],
    written: &mut usize,
    side: &mut u16,
) -> u16
    ensures { CalledWithSide (Q.VirtualConflict (virtual_from (node ∷ touch ∷ vertex ∷ virtual_vertex ∷ []))) table.old out.old result side.new written.new table.new out.new }
{
    let request = numbered::virtual_conflict(node, touch, vertex, virtual_vertex);
    let answer = primal::virtual_conflict(table, out, request);
    numbered::tell_side(answer, side);
    numbered::tell(answer, written)
}

#[unsafe(no_mangle)]
pub extern "C" fn boltclover_expand(
    table: &mut Table,
    node: u16,
    out: &mut [u8],
    written: &mut usize,
) -> u16
    ensures { Called (Q.Expansion (expansion_from (node ∷ []))) table.old out.old result written.new table.new out.new }
{
    let request = numbered::expansion(node);
    let answer = primal::expand(table, out, request);
    numbered::tell(answer, written)
}

#[unsafe(no_mangle)]
pub extern "C" fn boltclover_list(table: &Table, out: &mut [u8], written: &mut usize) -> u16
    ensures { Called Q.List table.now out.old result written.new table.now out.new }
{
    let answer = primal::list(table, out);
    numbered::tell(answer, written)
}

// Kind 0 is nobody, 1 a defect, 2 a virtual vertex, which stands in `peer_through`; what does not apply is none.
#[unsafe(no_mangle)]
pub extern "C" fn boltclover_partner(
    table: &Table,
    defect: u16,
    kind: &mut u16,
    partner: &mut u16,
    through: &mut u32,
    peer_through: &mut u32,
) -> u16
    ensures { ToldPartner (partner_of (table_of table.now) defect) result kind.new partner.new through.new peer_through.new }
{
    let answer = primal::partner(table, Node(defect));
    outcome::partner::tell(answer, kind, partner, through, peer_through)
}

#[unsafe(no_mangle)]
pub extern "C" fn boltclover_run(
    table: &mut Table,
    tape: &[u8],
    out: &mut [u8],
    allowance: u32,
    stop: &mut u16,
    handled: &mut u32,
    written: &mut usize,
    unread: &mut usize,
) -> u16
    ensures { Run allowance table.old out.old tape.now result stop.new handled.new written.new unread.new table.new out.new }
{
    match primal::run(table, tape, out, allowance) {
        Ok(run) => {
            *stop = u16::from(run.stop);
            *handled = run.handled;
            *written = run.written;
            *unread = run.rest.len();
            0
        }
        Err(refused) => {
            *stop = 0;
            *handled = 0;
            *written = 0;
            *unread = refused.rest.len();
            u16::from(refused.refusal)
        }
    }
}
