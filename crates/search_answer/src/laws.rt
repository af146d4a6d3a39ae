//! Theorems about answers: of several traces, and of parts of them that are looked at by themselves, as in several
//! threads.
//!
//! Each function has an empty body: its contract is the statement, and its proof stands in `proofs/laws/`. Nothing
//! calls them; proofs of `query_fanout` cite the lemmas.

ghost use Rattle.search_answer.specs.Best.{FirstStays, PickedAnswerTheWhole};
ghost use Rattle.search_answer.specs.Parts.{EachIsAnswered, FirstOfFirsts, JoinedAnswers, OneAnswer, PartedAnswers};

/// Of each trace a query answers something or nothing, and only one thing.
pub fn one_answer_each()
    ensures some { EachIsAnswered }
    ensures one { OneAnswer }
{}

/// What a list of traces answers is what its parts answer, joined.
pub fn parts_answer_the_whole()
    ensures joined { JoinedAnswers }
    ensures parted { PartedAnswers }
{}

/// The first results of joined lists are the first of the lists' first results, joined: so a part may be ranked and cut
/// by itself.
pub fn first_of_parts()
    ensures { FirstOfFirsts }
{}

/// If as many results are kept as are asked for, others that rank after the kept ones change nothing.
pub fn first_stays()
    ensures { FirstStays }
{}

/// If each trace of which a query answers something is picked, the first occurrences of the picked traces' rows have
/// the answer that those of all rows have.
pub fn picked_answer_the_whole()
    ensures { PickedAnswerTheWhole }
{}
