// Where an attribute stands.

// An attribute: its name stands from `name` to before `behind`, its value from `value` to before `close`, and `end` is behind its quote.
#[derive(Clone, Copy)]
pub struct Attribute {
    pub name: usize,
    pub behind: usize,
    pub value: usize,
    pub close: usize,
    pub end: usize,
}
