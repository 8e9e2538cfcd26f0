// Worked cases: small volumes and trays, and what the definitions and contracts say of them.
#![tactic(auto)]

ghost use Rattle.std.specs.Prelude.{◌≡◌};
ghost use Rattle.worked.specs.Cases.{Cases};

// Every worked case holds. Answers how many there are.
pub fn cases_hold() -> usize
    ensures hold { Cases }
    ensures count { result ≡ 8 }
{
    8
}
