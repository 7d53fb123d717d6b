// What a message may do on the port that it came on.

#[derive(Clone, Copy)]
pub struct Rights {
    // functions 1, 3, 4 and 5 need a number once the page keeps one
    pub guarded: bool,
    // Ping and function 2 only
    pub readonly: bool,
}
