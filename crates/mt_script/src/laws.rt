//! Laws of scripts, in the words of texts and lines alone.

ghost use Rattle.std.specs.Prelude.{◌≡◌, ◌≤◌, ◌<◌, ◌⊎◌, ◌++◌, ◌∷◌, [], ℕ, List, All, length, map, Result, Ok, Some};
ghost use Rattle.mt_script.specs.declared.event.Event.{Event};
ghost use Rattle.mt_script.specs.declared.event.Line.{Line};
ghost use Rattle.mt_script.specs.declared.event.ScriptRefusal.{ScriptRefusal};
ghost use Rattle.mt_script.specs.Lines.{Lacks, ended, lines_of};
ghost use Rattle.mt_script.specs.Spelling.{IsBytes, IsEvent, spelled};
ghost use Rattle.mt_script.specs.Meaning.{Meaning, Means, ReadsAs, line_limit, numbered};

/// The lines of a text, each with a byte 10 behind it, are the text again, or the text with one
/// more byte 10; no line has a byte 10. Lines without a byte 10 are the lines of the text that
/// they make, whether or not the last one, where it is not empty, has a byte 10 behind it.
pub fn cut_into_lines()
    ensures whole { (text : List ℕ)
        → (ended (lines_of text) ≡ text) ⊎ (ended (lines_of text) ≡ text ++ 10 ∷ []) }
    ensures no_end { (text : List ℕ) → All (Lacks 10) (lines_of text) }
    ensures closed { (lines : List (List ℕ)) → All (Lacks 10) lines → lines_of (ended lines) ≡ lines }
    ensures unclosed { (lines : List (List ℕ)) (last : List ℕ)
        → All (Lacks 10) lines → Lacks 10 last → 0 < length last
        → lines_of (ended lines ++ last) ≡ lines ++ last ∷ [] }
{}

/// Each event has one spelling, which no other event has and which is a line.
pub fn one_spelling()
    ensures one { (a b : Event) → IsEvent a → IsEvent b → spelled a ≡ spelled b → a ≡ b }
    ensures line { (event : Event) → IsEvent event → IsBytes (spelled event) × Lacks 10 (spelled event) }
{}

/// Each line has exactly one meaning.
pub fn one_meaning()
    ensures some { (line : List ℕ) → IsBytes line → Lacks 10 line → (meaning : Meaning) × Means line meaning }
    ensures one { (line : List ℕ) (a b : Meaning) → Means line a → Means line b → a ≡ b }
{}

/// Each text is exactly one script, or has exactly one refusal; and each list of events, if not
/// too long, has a text.
pub fn one_answer()
    ensures some { (text : List ℕ)
        → IsBytes text → (answer : Result (List Line) ScriptRefusal) × ReadsAs text answer }
    ensures one { (text : List ℕ) (a b : Result (List Line) ScriptRefusal)
        → ReadsAs text a → ReadsAs text b → a ≡ b }
    ensures written { (events : List Event)
        → length events ≤ line_limit → All IsEvent events
        → ReadsAs (ended (map spelled events)) (Ok (numbered 1 (map Some events))) }
{}

/// The events of a script can be spelled, there are no more of them than a text may have lines,
/// and their numbers are those of lines.
pub fn events_read()
    ensures events { (text : List ℕ) (script : List Line)
        → ReadsAs text (Ok script) → All (λ line. IsEvent line.event) script }
    ensures few { (text : List ℕ) (script : List Line)
        → ReadsAs text (Ok script) → length script ≤ line_limit }
    ensures numbers { (text : List ℕ) (script : List Line)
        → ReadsAs text (Ok script)
        → All (λ line. (1 ≤ line.number) × (line.number ≤ line_limit)) script }
{}
