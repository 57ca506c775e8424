//! Laws of the definitions, as contracts of functions that do nothing.

ghost use Rattle.cert_check.specs.Laws.{GoodIsConverged, GoodIsCovered, MadeIsGood};
ghost use Rattle.cert_check.specs.Laws.{RefutedIsImplied};
ghost use Rattle.cert_check.specs.ReadingLaws.{EachCertificateIsReadOrRefused, NoTwoCertificates};
ghost use Rattle.cert_check.specs.ReadingLaws.{NoTwoFaults, ReadCertificateIsNotRefused};
ghost use Rattle.cert_check.specs.WritingLaws.{MadeIsConfirmed, WrittenIsRead};

/// A candidate that tokens refute is implied by the network.
pub fn refuted_is_implied()
    ensures { RefutedIsImplied }
{}

/// A network whose certificate is good is covered.
pub fn good_is_covered()
    ensures { GoodIsCovered }
{}

/// A network whose certificate is good is the one that the answers converge on.
pub fn good_is_converged()
    ensures { GoodIsConverged }
{}

/// The certificate that is made of a covered network is good.
pub fn made_is_good()
    ensures { MadeIsGood }
{}

/// No bytes are read and refused.
pub fn read_is_not_refused()
    ensures { ReadCertificateIsNotRefused }
{}

/// No bytes are read as two certificates.
pub fn no_two_certificates()
    ensures { NoTwoCertificates }
{}

/// No bytes are refused for two faults.
pub fn no_two_faults()
    ensures { NoTwoFaults }
{}

/// Each list of bytes is read as a certificate, or is refused, and not for want of memory.
pub fn each_is_read_or_refused()
    ensures { EachCertificateIsReadOrRefused }
{}

/// The text of a certificate is read as that certificate.
pub fn written_is_read()
    ensures { WrittenIsRead }
{}

/// The text that is made for a covered network is read as the certificate that was made, and a
/// check confirms it.
pub fn made_is_confirmed()
    ensures { MadeIsConfirmed }
{}
