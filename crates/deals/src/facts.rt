/// What is looked up before a deal is judged. The first three are of sealed bytes, and have no say where
/// none come.
#[derive(Clone, Copy, PartialEq, Eq, Debug)]
pub struct Facts {
    /// Whether the bytes hash to their name.
    pub name_fits: bool,
    /// Whether other bytes are held under the name.
    pub clash: bool,
    /// Whether none are held under it.
    pub new_body: bool,
    /// The own claim that the bytes of a slot are, if they are one.
    pub home: Option<u32>,
    /// The number of the next claim.
    pub issued: u32,
    /// How many units the node may hold for others.
    pub capacity: u32,
}
