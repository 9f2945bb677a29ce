//! What a problem tells of its stems.

ghost use Rattle.std.specs.Prelude.{◌≡◌, ◌<◌, Some, length, slice_get};
ghost use Rattle.std.specs.Option.{option_map};
ghost use Rattle.ips_problem.specs.Held.{posed_of};
ghost use Rattle.ips_problem.specs.Posed as posed;
ghost use Rattle.ips_problem.specs.Posed.{count_at};

use crate::picked::version_of;
use crate::problem::Problem;
use ips_fmri::Version;

impl Problem {
    /// The stem with this number.
    pub fn stem(&self, stem: u32) -> &str
        requires { stem < length (posed_of self.now).stems }
        ensures { slice_get (posed_of self.now).stems stem ≡ Some result.now }
    {
        self.stems.as_slice()[stem as usize].as_str()
    }

    /// The version of a candidate of a stem, each by its number; None is absence.
    pub fn version(&self, stem: u32, candidate: u32) -> Option<&Version>
        requires stem { stem < length (posed_of self.now).stems }
        requires candidate { candidate < count_at (slice_get (posed_of self.now).rows stem) }
        ensures { option_map (λ v. v.now) result ≡ posed.version_at (slice_get (posed_of self.now).rows stem) (Some candidate) }
    {
        version_of(&self.rows[stem as usize], candidate)
    }
}
