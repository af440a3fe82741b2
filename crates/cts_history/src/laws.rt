//! What legal histories mean, as laws: each is the contract of a function that does nothing.

ghost use Rattle.cts_history.specs.Laws.{AcceptedStandOnce, AnswersStay, EveryEntryIsAccepted, LegalHistoriesCanBePrinted, FirstLineIsOne, FrontsOpen, HistoryIsOne, HistoryTextsOpen};

/// Replies that are right at a history are right at every longer one.
pub fn answers_stay()
    ensures { AnswersStay }
{}

/// Every entry of a legal history is an edit that one caller was told to be accepted.
pub fn every_entry_is_accepted()
    ensures { EveryEntryIsAccepted }
{}

/// In a legal history each caller's accepted edits stand once and in their order, and nothing else of
/// that caller.
pub fn accepted_stand_once()
    ensures { AcceptedStandOnce }
{}

/// A legal history and its replies can be printed, where each edit is accepted by those before it.
pub fn legal_histories_can_be_printed()
    ensures { LegalHistoriesCanBePrinted }
{}

/// Bytes begin with one history at most.
pub fn history_is_one()
    ensures { HistoryIsOne }
{}

/// Bytes that begin with no history go wrong at one line.
pub fn first_line_is_one()
    ensures { FirstLineIsOne }
{}

/// The text of a history and of the replies to the callers begins with the history, whatever comes after it.
pub fn history_texts_open()
    ensures { HistoryTextsOpen }
{}

/// So does every text with the same lines up to the last entry.
pub fn fronts_open()
    ensures { FrontsOpen }
{}
