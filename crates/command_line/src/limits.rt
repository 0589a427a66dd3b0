ghost use Rattle.std.specs.Prelude.{◌≡◌};
ghost use Rattle.command_line.specs.LimitLines.{limit_line};

use plant_record::LimitKind;

/// The text by which a report names a limit.
pub fn limit_line(what: LimitKind) -> &'static [u8]
    ensures { result.now ≡ limit_line what }
{
    match what {
        LimitKind::PlantText => b"plant text",
        LimitKind::TableText => b"table text",
        LimitKind::Vectors => b"vectors",
        LimitKind::Cells => b"cells",
        LimitKind::Pairs => b"pairs",
        LimitKind::Edges => b"edges",
    }
}
