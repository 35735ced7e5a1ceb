// What is left of a file while its parts are read in order.
ghost use Rattle.std.specs.Prelude.{◌+◌, ◌<◌, ◌^◌, length};

use raw_image::ImageError;

/// The bytes of a file from an offset on.
#[derive(Clone, Copy)]
pub(crate) struct Left<'a> {
    pub offset: usize,
    pub bytes: &'a [u8],
    ghost short: { offset + length bytes.now < 2 ^ 63 },
}

impl<'a> Left<'a> {
    ghost use Rattle.std.specs.Prelude.{◌≡◌, ◌≤◌, IfOk};
    ghost use Rattle.imagedisk.specs.Left.{Rest, rest_of, part, Gives};

    /// The next part, of `count` bytes, and what is left after it.
    pub fn part(self, count: usize) -> Result<(&'a [u8], Left<'a>), ImageError>
        requires { count ≤ 8192 }
        ensures read { Gives (λ x. (x.0.now, rest_of x.1)) result (part count (rest_of self.entry)) }
        ensures length { IfOk result (λ x. length x.0.now ≡ count) }
        ensures shorter { IfOk result (λ x. length x.1.bytes.now + count ≤ length self.entry.bytes.now) }
    {
        let have = self.offset + self.bytes.len();
        if self.bytes.len() < count {
            let need = self.offset + count;
            return Err(ImageError::TooShort { need, have });
        }
        let (front, bytes) = self.bytes.split_at(count);
        let left = Left {
            offset: self.offset + count,
            bytes,
        };
        Ok((front, left))
    }
}
