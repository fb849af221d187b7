// The head of a row, before its transaction lays it.
ghost use Rattle.std.specs.Prelude.{◌≡◌, length};
ghost use Rattle.ctr_page.specs.Making.{IsVersion};
ghost use Rattle.ctr_wishes.specs.Heads.{version_by};

use ctr_page::{Tombstone, Version};
use ctr_rec::Bytes;
use ctr_types::Xid;
use std::marker::Model;

/// The version of a row that a Write will lay, by whichever transaction.
#[derive(Drop)]
pub struct Head {
    tombstone: Tombstone,
    payload: Vec<u8>,
}

impl Model for Head {
    ghost use Rattle.std.specs.Prelude.{◌≤◌};
    ghost use Rattle.ctr_wishes.specs.HeadMade.{HeadMade};

    ghost Value = { HeadMade };

    ghost view = { λ h. record { tombstone = h.tombstone; payload = h.payload.items } };

    ghost invariant = { λ h. h.tombstone ≤ 1 };
}

impl Head {
    /// That of a row, by its payload.
    pub(crate) fn of_row(payload: Vec<u8>) -> Head
        ensures { result ≡ record { tombstone = 0; payload = payload.items } }
    {
        Head {
            tombstone: Tombstone::NONE,
            payload,
        }
    }

    /// That of a tombstone, with zeros in place of a payload.
    pub(crate) fn of_none(zeros: Vec<u8>) -> Head
        ensures { result ≡ record { tombstone = 1; payload = zeros.items } }
    {
        Head {
            tombstone: Tombstone::DELETED,
            payload: zeros,
        }
    }

    /// The version by a transaction. It takes no memory.
    pub fn version(&self, x: Xid) -> Version<'_>
        ensures said { result ≡ version_by x self.now }
        // It can be put where its payload has room.
        ensures fits { IsVersion (length result.payload) result }
    {
        Version {
            xid: x,
            tombstone: self.tombstone,
            payload: Bytes::new(&self.payload),
        }
    }
}
