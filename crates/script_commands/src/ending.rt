//! How a call of the program ended.
ghost use Rattle.std.specs.Prelude.{◌≡◌, None, Some};

use client_seat::Front;

/// How a call of the program ended.
#[derive(Drop)]
pub struct Ended {
    /// 0: the script was played and its whole report, summary or image written, or an image is sound and its map was written. 2: the
    /// words are no command. 3: the bytes read are no script, or no image. 4: the source failed. 5: the sink failed. 6: want of
    /// memory. 7: the script was played, and there is no image of what it leaves. 8: a word of an image is bad.
    pub status: u8,
    /// The log of the play. None exactly where nothing was played to its end: at the statuses 2, 3, 4 and 6, and of an audit.
    pub front: Option<Front>,
}

impl Ended {
    /// Nothing was played.
    pub fn unplayed(status: u8) -> Ended
        ensures status { result.status ≡ status }
        ensures front { result.front ≡ None }
    {
        Ended {
            status,
            front: None,
        }
    }

    /// A script was played, with this log.
    pub fn played(status: u8, front: Front) -> Ended
        ensures status { result.status ≡ status }
        ensures front { result.front ≡ Some front }
    {
        Ended {
            status,
            front: Some(front),
        }
    }
}
