// What look sees (document 01, "What the unit calls"). specs/View.antt says what it stands for.

// The newest checkpoint's restarts, and the stretch of the FRAM image where its open part lies.
#[derive(Clone, Copy)]
pub struct Seen {
    pub restarts: usize,
    pub offset: usize,
    pub length: usize,
}
