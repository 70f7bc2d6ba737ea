/// What a history tells: who makes its entries, and which lists of entries are legal. It has no functions.
pub trait Story {
    ghost use Rattle.std.specs.Prelude.{ℕ, List, [], ◌++◌};

    /// One entry of the history.
    type Entry: Drop;

    // The number of the actor that made an entry.
    ghost actor: { Self.Entry → ℕ };

    // Which lists of entries are legal: the empty one is, and so is each beginning of a legal one.
    ghost legal: { List Self.Entry → Type 0 };

    ghost empty_is_legal: { legal [] };

    ghost prefix_is_legal: { (xs ys : List Self.Entry) → legal (xs ++ ys) → legal xs };
}
