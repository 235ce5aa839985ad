//! Texts of certificates.

ghost use Rattle.std.specs.Prelude.{◌≡◌};
ghost use Rattle.sp_text.specs.declared.limits.TheConstants.{MOST_CERTIFICATE_DEPTH};
ghost use Rattle.sp_cert.specs.Tree.{file_of};
ghost use Rattle.sp_cert.specs.Within.{IsFile};
ghost use Rattle.sp_sorts.specs.Certificates.{certificates};

use sp_cert::{CertFile, read_cert};
use sp_frame::Text;
use sp_text::{MOST_CERTIFICATE_BYTES, TextFault};
use std::alloc::Global;
use std::marker::Model;

/// A certificate file that was read. Contracts see it as the plain file.
#[derive(Drop)]
pub struct Certificates {
    file: CertFile,
}

impl Model for Certificates {
    ghost use Rattle.sp_cert.specs.Tree.{File, file_of};
    ghost use Rattle.sp_sorts.specs.Certificates.{file_code};

    ghost Value = { File };

    ghost coded = { file_code };

    ghost use Rattle.sp_text.specs.declared.limits.TheConstants.{MOST_CERTIFICATE_DEPTH};
    ghost use Rattle.sp_cert.specs.Within.{IsFile};

    ghost view = { λ c. file_of c.file };

    ghost invariant = { λ c. IsFile MOST_CERTIFICATE_DEPTH (file_of c.file) };
}

impl Certificates {
    /// The file. A text can spell it.
    pub fn file(&self) -> &CertFile
        ensures file { file_of result.now ≡ self.now }
        ensures spelled { IsFile MOST_CERTIFICATE_DEPTH self.now }
    {
        &self.file
    }
}

impl Text for Certificates {
    ghost sort = { certificates };

    fn most() -> u32 {
        MOST_CERTIFICATE_BYTES
    }

    #[tactic(auto, using(crate::proofs::Divided::told_file, crate::proofs::Divided::told_fault))]
    fn read(alloc: Global, text: &[u8]) -> Result<Certificates, TextFault> {
        let file = read_cert(alloc, text)?;
        Ok(Certificates { file })
    }
}
