// What clap reads of the words after the first.
ghost use Rattle.std.specs.Prelude.{◌≡◌, map, string_bytes, IfOk, IfSome, IsNone, Some};
ghost use Rattle.clap.specs.Words.{found_of};
ghost use Rattle.command_words.specs.Grammar.{IsNoCommand, given_by, given_in};

use crate::clap_grammar::{grammar, refusal};
use clap::ArgMatches;
use mb_base::NoMemory;
use std::alloc::Global;

/// What the words after the first give. None where clap refuses them; then they are of no command.
pub fn parse<'a>(alloc: Global, words: &'a [String]) -> Result<Option<ArgMatches<'a>>, NoMemory>
    ensures given { IfOk result (λ o. IfSome o (λ matches. given_by (map string_bytes words.entry.now) ≡ Some (given_in (found_of matches)))) }
    ensures refused { IfOk result (λ o. IsNone o → IsNoCommand (given_by (map string_bytes words.entry.now))) }
{
    match grammar(alloc)?.try_get_matches_from(words) {
        Ok(matches) => Ok(Some(matches)),
        Err(error) => {
            refusal(error.kind())?;
            Ok(None)
        }
    }
}
