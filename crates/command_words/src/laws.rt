//! A theorem about the definition of what words ask: `clap` by its own definition agrees with it, but for numbers, of
//! which `clap` knows no range.
//!
//! The function has an empty body: its contract is the statement, and its proof stands in `proofs/laws/`. Nothing
//! calls it; proofs of `session_meaning` and `trace_shell` cite the lemmas, of `proofs/Spelled.antt`.

ghost use Rattle.std.specs.Prelude.{◌≡◌, ◌≤◌, [], All, List, Option, decimal, true, ℕ};
ghost use Rattle.std.specs.Str.{IsUtf8};
ghost use Rattle.command_words.specs.Commands.{Alone, Command, Drill, Serve, Spells};
ghost use Rattle.command_words.specs.Numbers.{IsCount, fewest_clients, fewest_traces, greatest_seed, most_clients, most_rounds, most_traces, word_faults};
ghost use Rattle.command_words.specs.Spelling.{Given, IsTaken, begins_to_serve, drill_words, search_line, serve_words};

/// Laws of what words ask. Words have no fault exactly where they ask something: none by `clap`'s own definition, and no
/// number out of its range.
pub fn what_words_spell()
    // Nothing is at fault in words that ask something.
    ensures clean { (words : List (List ℕ)) (c : Command) → Spells words c
        → word_faults words ≡ [] }
    // Words without fault ask something, where each is UTF-8.
    ensures some { (words : List (List ℕ)) → All IsUtf8 words → word_faults words ≡ []
        → (c : Command) × Spells words c }
    // They ask one thing alone.
    ensures one { (words : List (List ℕ)) (c d : Command) → Spells words c → Spells words d
        → c ≡ d }
    // Words that are those of a search as the documents write it ask for it.
    ensures taken { (words : List (List ℕ)) (given : Given) → IsTaken given words
        → Spells words (Alone (search_line given)) }
    // So do those of a drill, whose numbers are in their ranges.
    ensures drills { (seed traces : ℕ) → seed ≤ greatest_seed → fewest_traces ≤ traces
        → traces ≤ most_traces
        → Spells (drill_words (decimal seed) (decimal traces)) (Drill seed traces) }
    // And those that serve clients.
    ensures serves { (clients rounds : ℕ) (told : Option (List ℕ)) → IsCount told rounds
        → fewest_clients ≤ clients → clients ≤ most_clients → rounds ≤ most_rounds
        → Spells (serve_words (decimal clients) told) (Serve clients rounds) }
    // Words that ask to serve clients begin with `serve`.
    ensures begins { (words : List (List ℕ)) (clients rounds : ℕ)
        → Spells words (Serve clients rounds) → begins_to_serve words ≡ true }
    // And words that begin so ask nothing else.
    ensures only { (words : List (List ℕ)) (c : Command) → begins_to_serve words ≡ true
        → Spells words c → (clients rounds : ℕ) × (c ≡ Serve clients rounds) }
{}
