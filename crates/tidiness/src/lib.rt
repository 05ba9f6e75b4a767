// A text's plain form as a call hands it out: what is answered, what the output then holds, and what holds of both. Definitions, in specs/, and theorems, in proofs/; no functions.
#![tactic(auto)]

// The answer to a call.
#[derive(Clone, Copy)]
pub struct Tidied {
    // A refusal's number; 0: the plain form is written. The rules' number, of which the theorems speak (`tidied_of`), and which C has.
    pub number: u8,
    // How many bytes are UTF-8, where that is why (4), else 0.
    pub place: usize,
    // How many bytes the plain form has, where it is written or the output is too short (0 and 11), else 0.
    pub bytes: usize,
    // How many arguments its pieces want, where it is written, else 0.
    pub arguments: usize,
}
