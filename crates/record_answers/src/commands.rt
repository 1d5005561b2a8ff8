// The commands.
ghost use Rattle.record.specs.declared.answer.Record.TheVariants as R;
ghost use Rattle.record.specs.Records.{answer_bytes};
ghost use Rattle.record_fields.specs.Outputs.{Wrote};

use record::{Kind, Speed};
use record_fields::Output;
use slot::Node;

pub fn speed(out: &mut Output, node: Node, speed: Speed)
    ensures { Wrote (answer_bytes (R.Speed node speed)) out.old out.new }
{
    out.put(Kind::Speed, [node.0, u16::from(speed)]);
}

pub fn create(out: &mut Output, blossom: Node)
    ensures { Wrote (answer_bytes (R.Create blossom)) out.old out.new }
{
    out.put(Kind::Create, [blossom.0]);
}

pub fn expand(out: &mut Output, blossom: Node)
    ensures { Wrote (answer_bytes (R.Expand blossom)) out.old out.new }
{
    out.put(Kind::Expand, [blossom.0]);
}
