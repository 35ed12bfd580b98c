ghost use Rattle.ver_text.specs.PartLaw.{RefusedPartIsWrong};
ghost use Rattle.ver_text.specs.SyntaxLaw.{RefusalIsFirst};
ghost use Rattle.ver_text.specs.TestLaw.{TestsAreExact};
ghost use Rattle.ver_text.specs.TextLaw.{PrintedIsRead, PrintedSpells, ReadSpells, SpelledIsRead, SpellsOne};

/// The place at which the syntax refuses tokens is that of the first after which no continuation has the
/// syntax, or the end where they end too early.
pub fn syntax_law()
    ensures { RefusalIsFirst }
{}

/// Where a text that has the syntax is refused at a place, a part begins there, and no netlist's text begins
/// with the parts up to it.
pub fn parts_law()
    ensures { RefusedPartIsWrong }
{}

/// Numbers, ranges and literals are read exactly where they are written so, and the test of a cell is its
/// rule.
pub fn tests_law()
    ensures { TestsAreExact }
{}

/// The netlist that a text spells is what is read of it, what is read of a text is a netlist that it
/// spells, and no other is spelled by it.
pub fn spelling_law()
    ensures read { SpelledIsRead }
    ensures spelled { ReadSpells }
    ensures only { SpellsOne }
{}

/// The printed text of a well-formed netlist spells it and is read back as it.
pub fn print_law()
    ensures spells { PrintedSpells }
    ensures read { PrintedIsRead }
{}
