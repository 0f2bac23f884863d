// What the solve program prints for a game and for what was read: definitions in specs/. The code is the length of the rooms that it lends.
#![tactic(auto)]

// "The program lends 32,768 entries a room."
pub const ROOM: usize = 32768;
