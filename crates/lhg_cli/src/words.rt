// What do the words ask for?
ghost use Rattle.std.specs.Prelude.{◌≡◌, ◌≢◌, ◌≤◌, ◌∷◌, [], ℕ, decimal, map, string_bytes, IfSome, IsNone};
ghost use Rattle.lhg_cli.specs.Words.{Asks};

use crate::request::Request;
use itoa::Buffer;

/// The most rounds that are computed, for a word and for a generated plant.
pub const MOST_ROUNDS: u32 = 1_000;

const USUAL_BUDGET: u32 = 64;

const MOST_GENERATED: u32 = 64;

// The number that a word is in decimal without a leading zero, from 1 to the largest that it may be.
fn number_up_to(most: u32, word: &str) -> Option<u32>
    ensures some { IfSome result (λ n. (word.now ≡ decimal n) × (1 ≤ n) × (n ≤ most)) }
    ensures none { IsNone result → (n : ℕ) → 1 ≤ n → n ≤ most → word.now ≢ decimal n }
{
    let Ok(n) = word.parse::<u32>() else {
        return None;
    };
    let mut buffer = Buffer::new();
    if n == 0 || n > most || buffer.format(n) != word {
        return None;
    }
    Some(n)
}

// What is asked for with a number.
fn with_number(word: &str, number: &str) -> Option<Request>
    ensures some { IfSome result (λ r. Asks (word.now ∷ number.now ∷ []) r) }
    ensures none { IsNone result → (r : Request) → ¬ Asks (word.now ∷ number.now ∷ []) r }
{
    if word == "synth" {
        let rounds = number_up_to(MOST_ROUNDS, number)?;
        Some(Request::Synth(rounds))
    } else if word == "explain" {
        let rounds = number_up_to(MOST_ROUNDS, number)?;
        Some(Request::Explain(rounds))
    } else if word == "lazy" {
        let rounds = number_up_to(MOST_ROUNDS, number)?;
        Some(Request::Lazy(rounds))
    } else if word == "spoil" {
        let rounds = number_up_to(MOST_ROUNDS, number)?;
        Some(Request::Spoil(rounds))
    } else if word == "reach" {
        let rounds = number_up_to(MOST_ROUNDS, number)?;
        Some(Request::Reach(rounds))
    } else if word == "gen" {
        let locations = number_up_to(MOST_GENERATED, number)?;
        Some(Request::Gen(locations))
    } else {
        None
    }
}

// What is asked for by a word alone.
fn alone(word: &str) -> Option<Request>
    ensures some { IfSome result (λ r. Asks (word.now ∷ []) r) }
    ensures none { IsNone result → (r : Request) → ¬ Asks (word.now ∷ []) r }
{
    if word == "synth" {
        Some(Request::Synth(USUAL_BUDGET))
    } else if word == "check" {
        Some(Request::Check)
    } else if word == "run" {
        Some(Request::Run)
    } else if word == "explain" {
        Some(Request::Explain(USUAL_BUDGET))
    } else if word == "migrate" {
        Some(Request::Migrate)
    } else if word == "lazy" {
        Some(Request::Lazy(USUAL_BUDGET))
    } else if word == "spoil" {
        Some(Request::Spoil(USUAL_BUDGET))
    } else if word == "reach" {
        Some(Request::Reach(USUAL_BUDGET))
    } else {
        None
    }
}

/// What the words ask for, where they ask for something.
pub fn asked(words: &[String]) -> Option<Request>
    ensures some { IfSome result (λ r. Asks (map (λ w. string_bytes w) words.now) r) }
    ensures none { IsNone result → (r : Request) → ¬ Asks (map (λ w. string_bytes w) words.now) r }
{
    match words {
        [word] => alone(word.as_str()),
        [word, number] => with_number(word.as_str(), number.as_str()),
        _ => None,
    }
}
