// A law on the texts of a drill.
ghost use Rattle.drill_gen.specs.DrillLaws.{DrillIsShort};

/// Each text of a drill of at most 1,000 steps has at most 1 MiB.
pub fn drill_laws()
    ensures short { DrillIsShort }
{}
