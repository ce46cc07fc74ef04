// The bench examples: with the limits handed in from their one place, the definitions yield, by the machine and by the sentences, what documents 01, 02 and 001 say.
#![tactic(auto)]

ghost use Rattle.std.specs.Prelude.{◌≡◌, ◌++◌};
ghost use Rattle.limits.specs.Limits.{the_limits};
ghost use Rattle.bench.specs.Examples.{EachYields, starred, bodies, slips, from_document_001};

pub fn yield_as_expected()
    ensures { EachYields the_limits (starred ++ (bodies ++ (slips ++ from_document_001))) }
{}
