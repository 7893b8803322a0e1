//! What a link of a memory net will do, step by step.

/// One step of a script: what comes to be there when it is delivered.
#[derive(Drop)]
pub struct ScriptStep {
    /// Bytes of input, none or more.
    pub piece: Vec<u8>,
    /// How many bytes more may then be written.
    pub allowance: u32,
}

/// What a link of a memory net will give and take.
#[derive(Drop)]
pub struct Script {
    /// The steps, in order. Each report of the link delivers one.
    pub steps: Vec<ScriptStep>,
    /// How many bytes the link can have sent.
    pub room: usize,
}
