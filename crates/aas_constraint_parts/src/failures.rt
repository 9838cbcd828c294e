ghost use Rattle.std.specs.Prelude.{◌≡◌};
ghost use Rattle.aas_constraint_parts.specs.Tests.{first_failed};

/// The number of the first test that failed.
pub fn first_failed(tests: &[(u16, bool)]) -> Option<u16>
    ensures { result ≡ first_failed tests.now }
{
    tests.iter().find(|test| !test.1).map(|test| test.0)
}
