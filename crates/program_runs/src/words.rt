// The words that the program was given.
ghost use Rattle.std.specs.Prelude.{◌≡◌, ◌⊎◌, ◌++◌, Err, IfOk, IfErr, OnOk, drop, map, string_bytes};
ghost use Rattle.std.specs.Vec.Iter.{into_iter_items};
ghost use Rattle.std.specs.IoError.{error_kind};

use mb_base::{ArgList, NoMemory};
use mesh_files::Stop;
use std::alloc::Global;
use std::env::Args;
use std::io::{self, ErrorKind};
use std::rt::Env;

/// The words after the program's name. The stop is `Usage`, as a word that is not UTF-8 gives, or `NoMemory`; the contract says no more of which.
pub fn given_words<R: Env + AllocGlobal>(rt: &R, alloc: Global) -> Result<ArgList, Stop>
    ensures { IfErr result (λ stop. (stop ≡ Stop.Usage) ⊎ (stop ≡ Stop.NoMemory)) }
{
    words_of(alloc, std::env::args(rt))
}

// All but the first of the words that the system gave, in order. Where memory runs out for one of them, the stop is `NoMemory`. Where
// the system gave none, it is `Usage` for a word that is not UTF-8, and else `NoMemory`.
fn words_of(alloc: Global, given: io::Result<Args>) -> Result<ArgList, Stop>
    ensures words { IfOk given (λ words. IfOk result (λ list. list ≡ map string_bytes (drop 1 (into_iter_items words)))) }
    ensures memory { IfOk given (λ _. IfErr result (λ stop. stop ≡ Stop.NoMemory)) }
    ensures not_text { IfErr given (λ error. error_kind error ≡ ErrorKind.InvalidData → result ≡ Err Stop.Usage) }
    ensures starved { IfErr given (λ error. (error_kind error ≡ ErrorKind.InvalidData → ⊥) → result ≡ Err Stop.NoMemory) }
    ensures stop { IfErr result (λ stop. (stop ≡ Stop.Usage) ⊎ (stop ≡ Stop.NoMemory)) }
{
    match given {
        Ok(words) => match all_but_first(alloc, words) {
            Ok(list) => Ok(list),
            Err(NoMemory) => Err(Stop::NoMemory),
        },
        Err(error) => Err(stop_of(error)),
    }
}

// The words after the first.
fn all_but_first(alloc: Global, words: Args) -> Result<ArgList, NoMemory>
    ensures { IfOk result (λ list. list ≡ map string_bytes (drop 1 (into_iter_items words))) }
{
    let mut rest = words;
    let mut list = ArgList::start(alloc);
    let Some(_) = rest.next() else {
        return Ok(list);
    };
    add_all(&mut list, rest)?;
    Ok(list)
}

// Adds the words that are still to come.
fn add_all(list: &mut ArgList, words: Args) -> Result<(), NoMemory>
    ensures { OnOk result (list.new ≡ list.old ++ map string_bytes (into_iter_items words)) }
{
    let mut rest = words;
    while let Some(word) = rest.next() {
        list.push(word.as_str())?;
    }
    Ok(())
}

// Why the words can't be had: `Usage` where a word is not UTF-8.
fn stop_of(error: io::Error) -> Stop
    ensures usage { error_kind error ≡ ErrorKind.InvalidData → result ≡ Stop.Usage }
    ensures memory { (error_kind error ≡ ErrorKind.InvalidData → ⊥) → result ≡ Stop.NoMemory }
{
    if error.kind() == ErrorKind::InvalidData {
        Stop::Usage
    } else {
        Stop::NoMemory
    }
}
