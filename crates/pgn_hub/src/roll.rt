/// What is left of a queue when all passes are gathered: how many transactions its journal has.
#[derive(Clone, Copy)]
pub struct Roll {
    pub count: u32,
}
