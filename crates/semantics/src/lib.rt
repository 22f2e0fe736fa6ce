// The rules of a run of a checked sheet stand in specs/: State, Numbers, Rules, Runs. They are definitions that compute, and no code.
// Each function here carries in its contract what is proved of them.
#![tactic(auto)]

ghost use Rattle.semantics.specs.Grants.{AfterIsGranted, FurtherIsGranted, GrantLeadsToOne};
ghost use Rattle.semantics.specs.Laws.{GrantsAdd, EndedStays, WritesOn, HandsOn, CharactersKept, RoomCounted, ComesToRest, SpendsGranted, StopChangesNothing, StopsAtItsNode};
ghost use Rattle.semantics.specs.Soundness.{NeverStuck, StepKeepsSound, AfterIsSound, SoundIsSmall, GivenFirstsFit};
ghost use Rattle.semantics.specs.Readings.{WrappedIsModulo, DivisionIsDivision, QuotientInRange, SmallestOverMinusOne, NearestIsNearest};
ghost use Rattle.semantics.specs.Readings.{RowIsRow, OneRow, LiteralIsLiteral, LiteralsAreTaken, NumeralIsWritten, NumeralIsTaken, NestedTakes, NestedInOrder};
ghost use Rattle.semantics.specs.Starred.{StarredExamples, FurtherExamples};
ghost use Rattle.semantics.specs.Sheets.{empty_main};
ghost use Rattle.xi.specs.Obeys.{Obeys};

// A grant goes on until a node would begin unpaid, or the run has ended; `after` is where grants lead, and they lead nowhere else.
pub fn grants()
    ensures granted { AfterIsGranted }
    ensures further { FurtherIsGranted }
    ensures one { GrantLeadsToOne }
{}

// Fuel may be cut anywhere, an ended run stays, and what is spent is what was granted, or less once the run has ended.
pub fn cuts()
    ensures adds { GrantsAdd }
    ensures stays { EndedStays }
    ensures rests { ComesToRest }
    ensures spent { SpendsGranted }
{}

// A stop changes nothing, and its place is the node whose work is left undone.
pub fn stops()
    ensures nothing { StopChangesNothing }
    ensures place { StopsAtItsNode }
{}

// What was written and handed only grows; no character is lost or handed twice; nothing is written beyond the room.
pub fn host()
    ensures writes { WritesOn }
    ensures hands { HandsOn }
    ensures kept { CharactersKept }
    ensures room { RoomCounted }
{}

// No run of a sheet that obeys the rules is ever stuck, and all that is set has its type; every open call is small.
pub fn soundness()
    ensures never { NeverStuck }
    ensures keeps { StepKeepsSound }
    ensures sound { AfterIsSound }
    ensures small { SoundIsSmall }
    ensures firsts { GivenFirstsFit }
{}

// The definitions that compute, read in the words of the rules.
pub fn readings()
    ensures modulo { WrappedIsModulo }
    ensures division { DivisionIsDivision }
    ensures quotient { QuotientInRange }
    ensures smallest { SmallestOverMinusOne }
    ensures nearest { NearestIsNearest }
    ensures row { RowIsRow }
    ensures single { OneRow }
    ensures literal { LiteralIsLiteral }
    ensures taken { LiteralsAreTaken }
    ensures written { NumeralIsWritten }
    ensures back { NumeralIsTaken }
    ensures cells { NestedTakes }
    ensures order { NestedInOrder }
{}

// Runs of whole sheets; the smallest sheet obeys the rules.
pub fn starred()
    ensures runs { StarredExamples }
    ensures further { FurtherExamples }
    ensures obeys { Obeys empty_main }
{}
