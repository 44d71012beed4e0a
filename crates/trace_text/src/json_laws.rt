//! Laws of the objects that are printed, and examples of their text.

ghost use Rattle.trace_text.specs.JsonExamples.{ValveSends, ValveIsUnreachable, HoldingIsShort, TenBeforeTwo, EndsAtOnce, ClashNamesPairs};
ghost use Rattle.trace_text.specs.JsonLaws.{KeysRise, MembersStay, NamesArePlain};

/// What is true of any object that is printed, and of any name in it.
pub fn json_laws()
    ensures rising { KeysRise }
    ensures same { MembersStay }
    ensures plain_names { NamesArePlain }
{}

/// The text of reports and refusals.
pub fn json_examples()
    ensures sends { ValveSends }
    ensures unreachable { ValveIsUnreachable }
    ensures holding { HoldingIsShort }
    ensures order { TenBeforeTwo }
    ensures no_detail { EndsAtOnce }
    ensures clash { ClashNamesPairs }
{}
