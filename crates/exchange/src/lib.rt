// A command on its way: written by the controller, fed to the board, answered, and read by the controller. No code: the
// statements are in specs/.
#![tactic(auto)]
