// Member templates: what they are, the verdict on a text, and what holds of it. Definitions and theorems, in specs/; no functions.
#![tactic(auto)]

// The verdict on a text.
#[derive(Clone, Copy)]
pub enum Verdict {
    // It is a member template.
    Yes,
    // The first rule that is broken, 1 to 5, and the first piece that breaks it.
    Broken(u8, usize),
    // A refusal: its number, and its place.
    Refused(u8, usize),
}
