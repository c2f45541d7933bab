//! What is read off a site.

ghost use Rattle.std.specs.Prelude.{◌≡◌, IfOk, length};
ghost use Rattle.qc_site.specs.Site.{known};

use crate::Site;
use qc_list::OutOfMemory;

impl Site {
    /// Its number.
    pub fn number(&self) -> u8
        ensures { result ≡ self.now.number }
    {
        self.number
    }

    /// Its life: 1 more than its records of a rise or of a closed epoch.
    pub fn life(&self) -> u32
        ensures { result ≡ self.now.life }
    {
        self.life
    }

    /// The epoch that it has installed, from 1.
    pub fn epoch(&self) -> u8
        ensures { result ≡ self.now.epoch }
    {
        self.epoch
    }

    /// The number of lines that it knows.
    pub fn lines(&self) -> Result<u64, OutOfMemory>
        ensures { IfOk result (λ n. n ≡ length (known self.now)) }
    {
        Ok(self.known()?.lines().len() as u64)
    }

    /// The number of unfinished transactions that hold something here.
    pub fn holders(&self) -> u64
        ensures { result ≡ length self.now.held }
    {
        self.held.holders() as u64
    }
}
