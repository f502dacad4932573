//! Laws of histories and boards, for the proofs of callers.
ghost use Rattle.std.specs.Prelude.{◌≡◌, ℕ, List, [], ◌∷◌, ◌++◌, fold, All, IfSome};
ghost use Rattle.snoop_history.specs.declared.items.Item.{Item};
ghost use Rattle.snoop_history.specs.History.{Legal, IsNext, operation_of, flat, stores};
ghost use Rattle.snoop_history.specs.Within.{IsItemWithin, inside};
ghost use Rattle.snoop_history.specs.Board.{board_of, absorbed};

/// A legal history stays legal when an item is added whose operation, if any, may come next.
#[tactic(auto, using(crate::proofs::Legal::growth))]
pub fn legal_grows()
    ensures { (items : List Item) (entry : Item) → Legal items → IfSome (operation_of entry) (IsNext items) → Legal (items ++ entry ∷ []) }
{}

/// The first items of a legal history are legal.
pub fn legal_begins()
    ensures { (items rest : List Item) → Legal (items ++ rest) → Legal items }
{}

/// Flat memory after one more item: the value that it stores to the word of the block, or the value from before.
#[tactic(auto, using(crate::proofs::Legal::growth))]
pub fn flat_grows()
    ensures { (items : List Item) (entry : Item) (block word : ℕ) → flat (items ++ entry ∷ []) block word ≡ stores entry block word (flat items block word) }
{}

/// A board counts the whole of a history that lies within its shape.
#[tactic(auto, using(crate::proofs::Boards::inside_all))]
pub fn inside_whole()
    ensures { (cores blocks words : ℕ) (items : List Item) → All (IsItemWithin cores blocks words) items → inside cores blocks words items ≡ items }
{}

/// The board of a list with one item more.
#[tactic(auto, using(crate::proofs::Boards::absorbed_board))]
pub fn board_grows()
    ensures { (cores blocks words : ℕ) (items : List Item) (entry : Item) → board_of cores blocks words (items ++ entry ∷ []) ≡ absorbed (board_of cores blocks words items) entry }
{}

/// Items that are absorbed one by one, from the board of no items on, give the board of their list. So boards that absorb the same list are equal.
pub fn boards_are_one()
    ensures { (cores blocks words : ℕ) (items : List Item) → fold absorbed (board_of cores blocks words []) items ≡ board_of cores blocks words items }
{}
