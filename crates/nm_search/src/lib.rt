//! Ground for searches over states: lists that grow, sets, tests for equal states, and numbers of them.
//!
//! # What a contract sees
//! `specs/Lists.antt` says what a list has, and what a longer one adds to it. `specs/Tells.antt` says that a
//! test decides which values are equal, and builds such tests from those of the parts.
//! # What is proved
//! The lemmas of `proofs/`, which the proofs above cite.
#![tactic(auto)]

ghost use Rattle.std.specs.Prelude.{◌≡◌};
ghost use Rattle.nm_search.specs.Numbers.{mixed_lem};

/// A number of two numbers.
pub fn mixed(a: u64, b: u64) -> u64
    ensures { result ≡ mixed_lem a b }
{
    a.wrapping_mul(11_400_714_819_323_198_485).wrapping_add(b)
}
