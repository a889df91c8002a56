ghost use Rattle.serving.specs.Words.{EachItemInTurn, PiecesDoNotMatter, FewTurns};
ghost use Rattle.serving.specs.Histories.{EveryServedSessionIsKept};

// What holds of every stream. There is nothing to run: the contracts are theorems.

// What is sent for a stream is what is sent for its items, one behind the other.
pub fn each_item_in_turn()
    ensures { EachItemInTurn }
{}

// In whatever pieces a stream comes, the same is sent.
pub fn pieces_do_not_matter()
    ensures { PiecesDoNotMatter }
{}

// A stream is served whole in as many turns as it has bytes, and more turns change nothing.
pub fn few_turns()
    ensures { FewTurns }
{}

// The session that is served keeps its whole promise, whatever the stream and however much of it has been served.
pub fn every_served_session_is_kept()
    ensures { EveryServedSessionIsKept }
{}
