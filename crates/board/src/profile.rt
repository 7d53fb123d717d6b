// What the profile of a board lets its ports do.
ghost use Rattle.std.specs.Prelude.{◌≡◌};
ghost use Rattle.board.specs.Profile.{rights_of};

use command::Rights;

// The rights of a port: on port 1 of a read-only board, Ping and function 2 only.
pub(crate) fn rights_of(readonly: bool, port: u8) -> Rights
    ensures { result ≡ rights_of readonly port }
{
    if port == 0 {
        return Rights {
            guarded: true,
            readonly: false,
        };
    }
    Rights {
        guarded: false,
        readonly,
    }
}
