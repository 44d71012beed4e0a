//! Laws of event lines.

ghost use Rattle.std.specs.Prelude.{◌≡◌, ◌↔◌, ◌⊎◌, ℕ, true, false, List, [], Some, None, Ok, Err};
ghost use Rattle.text_base.specs.Tokens.{tokens_of};
ghost use Rattle.text_base.specs.Lexemes.{Lexeme};
ghost use Rattle.cca_base.specs.Prelude.{PlantModel};
ghost use Rattle.cca_base.specs.declared.codes.TheConstants.{MALFORMED};
ghost use Rattle.cca_base.specs.declared.cube.Pair.{Pair};
ghost use Rattle.cca_base.specs.declared.events.Event.{Event};
ghost use Rattle.script_reader.specs.Items.{Item, IsSpelled, item_of, spelling};
ghost use Rattle.script_reader.specs.EventLines.{as_event, by_tokens, event_by, event_of, event_line};
ghost use Rattle.script_reader.specs.Laws.{Spells, IsMalformed, IsLeastCode, Applies, IsNamed, SetsGoal};

/// The grammar beside the reading: what an item spells is read as that item, and what is read as an item is its spelling.
pub fn lines_are_spelled()
    ensures read { (i : Item) → IsSpelled i → item_of (spelling i) ≡ Some i }
    ensures spelled { (ls : List Lexeme) (i : Item) → item_of ls ≡ Some i → (ls ≡ spelling i)
        × IsSpelled i }
{}

/// A line without tokens says nothing, one that spells an item says what the item does, and each other line is malformed.
pub fn lines_say_items()
    ensures nothing { (m : PlantModel) (pending : List Pair) (mirrored : ℕ) (line : List ℕ) →
        (event_line m pending mirrored line ≡ Ok None) ↔ (tokens_of line ≡ Ok []) }
    ensures item { (m : PlantModel) (pending : List Pair) (mirrored : ℕ) (line : List ℕ) (i : Item)
        → Spells line i
        → event_line m pending mirrored line ≡ as_event (event_of m pending mirrored i) }
    ensures malformed { (m : PlantModel) (pending : List Pair) (mirrored : ℕ) (line : List ℕ) →
        (event_line m pending mirrored line ≡ Err MALFORMED) ↔ IsMalformed line }
{}

/// What an item is refused with is the least code that applies to it by the table of codes, and where none
/// applies it is taken as the event that it names.
pub fn least_codes_are_answered()
    ensures refused { (m : PlantModel) (pending : List Pair) (mirrored : ℕ) (i : Item) (code : ℕ)
        → (event_of m pending mirrored i ≡ Err code) ↔ IsLeastCode m pending mirrored i code }
    ensures taken { (m : PlantModel) (pending : List Pair) (mirrored : ℕ) (i : Item) (e : Event)
        → (event_of m pending mirrored i ≡ Ok e)
        ↔ (IsNamed m i e × ((code : ℕ) → Applies m pending mirrored i code → ⊥)) }
{}

/// Where lines set and clear no goals, exactly those are malformed that would be elsewhere or that spell such an item; a line
/// that spells another item says what it says elsewhere.
pub fn goals_are_left_out()
    ensures malformed { (m : PlantModel) (pending : List Pair) (mirrored : ℕ) (line : List ℕ) →
        (by_tokens (event_by false m pending mirrored) (tokens_of line) ≡ Err MALFORMED)
        ↔ (IsMalformed line ⊎ ((i : Item) × Spells line i × SetsGoal i)) }
    ensures others { (m : PlantModel) (pending : List Pair) (mirrored : ℕ) (line : List ℕ) (i : Item)
        → Spells line i → (SetsGoal i → ⊥)
        → by_tokens (event_by false m pending mirrored) (tokens_of line)
        ≡ event_line m pending mirrored line }
    ensures elsewhere { (m : PlantModel) (pending : List Pair) (mirrored : ℕ) (line : List ℕ) →
        by_tokens (event_by true m pending mirrored) (tokens_of line)
        ≡ event_line m pending mirrored line }
{}
