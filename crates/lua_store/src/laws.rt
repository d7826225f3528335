//! Laws of what is held.
ghost use Rattle.std.specs.Prelude.{◌≡◌, ℕ, List};
ghost use Rattle.std.specs.List.{All};
ghost use Rattle.lua_store.specs.Rows.{AreHeld, Cells, row_of, tables_of};
ghost use Rattle.lua_store.specs.Values.{Texts, with_text};

/// Once another text is held, a table whose texts were held stands for the same, and its texts still are. So do many.
pub fn texts_may_grow()
    ensures same { (texts : Texts) (bytes : List ℕ) (cells : Cells) → AreHeld texts cells → row_of (with_text texts bytes) cells ≡ row_of texts cells }
    ensures held { (texts : Texts) (bytes : List ℕ) (cells : Cells) → AreHeld texts cells → AreHeld (with_text texts bytes) cells }
    ensures tables { (texts : Texts) (bytes : List ℕ) (rows : List Cells) → All (AreHeld texts) rows → tables_of (with_text texts bytes) rows ≡ tables_of texts rows }
{}
