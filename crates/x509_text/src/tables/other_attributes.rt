//! Name attributes that X.520 doesn't define: RFC 4519 and RFC 4524, PKCS #9 (RFC 2985), the
//! CA/Browser Forum, RFC 3739, and Russia (RFC 9215).

use super::{Object, objects};

/// Name attributes that X.520 doesn't define: RFC 4519 and RFC 4524, PKCS #9 (RFC 2985), the
/// CA/Browser Forum, RFC 3739, and Russia (RFC 9215).
#[rattlefmt::skip]
pub(crate) static OTHER_ATTRIBUTES: &[Object] = objects!(
    b"\x09\x92\x26\x89\x93\xf2\x2c\x64\x01\x01" "UID" "userId", // 0.9.2342.19200300.100.1.1
    b"\x09\x92\x26\x89\x93\xf2\x2c\x64\x01\x03" "mail" "rfc822Mailbox", // 0.9.2342.19200300.100.1.3
    b"\x09\x92\x26\x89\x93\xf2\x2c\x64\x01\x05" "favouriteDrink" "favouriteDrink",
        // 0.9.2342.19200300.100.1.5
    b"\x09\x92\x26\x89\x93\xf2\x2c\x64\x01\x19" "DC" "domainComponent",
        // 0.9.2342.19200300.100.1.25
    b"\x09\x92\x26\x89\x93\xf2\x2c\x64\x01\x29" "mobileTelephoneNumber" "mobileTelephoneNumber",
        // 0.9.2342.19200300.100.1.41
    b"\x09\x92\x26\x89\x93\xf2\x2c\x64\x01\x2c" "uid" "uniqueIdentifier",
        // 0.9.2342.19200300.100.1.44
    b"\x2a\x85\x03\x03\x81\x03\x01\x01" "INN" "INN", // 1.2.643.3.131.1.1
    b"\x2a\x85\x03\x64\x01" "OGRN" "OGRN", // 1.2.643.100.1
    b"\x2a\x85\x03\x64\x03" "SNILS" "SNILS", // 1.2.643.100.3
    b"\x2a\x85\x03\x64\x05" "OGRNIP" "OGRNIP", // 1.2.643.100.5
    b"\x2a\x86\x48\x86\xf7\x0d\x01\x09\x01" "emailAddress" "emailAddress", // 1.2.840.113549.1.9.1
    b"\x2a\x86\x48\x86\xf7\x0d\x01\x09\x02" "unstructuredName" "unstructuredName",
        // 1.2.840.113549.1.9.2
    b"\x2a\x86\x48\x86\xf7\x0d\x01\x09\x07" "challengePassword" "challengePassword",
        // 1.2.840.113549.1.9.7
    b"\x2a\x86\x48\x86\xf7\x0d\x01\x09\x08" "unstructuredAddress" "unstructuredAddress",
        // 1.2.840.113549.1.9.8
    b"\x2a\x86\x48\x86\xf7\x0d\x01\x09\x0e" "extReq" "Extension Request", // 1.2.840.113549.1.9.14
    b"\x2a\x86\x48\x86\xf7\x0d\x01\x09\x14" "friendlyName" "friendlyName", // 1.2.840.113549.1.9.20
    b"\x2a\x86\x48\x86\xf7\x0d\x01\x09\x15" "localKeyID" "localKeyID", // 1.2.840.113549.1.9.21
    b"\x2b\x06\x01\x04\x01\x82\x37\x3c\x02\x01\x01" "jurisdictionL" "jurisdictionLocalityName",
        // 1.3.6.1.4.1.311.60.2.1.1
    b"\x2b\x06\x01\x04\x01\x82\x37\x3c\x02\x01\x02" "jurisdictionST"
        "jurisdictionStateOrProvinceName", // 1.3.6.1.4.1.311.60.2.1.2
    b"\x2b\x06\x01\x04\x01\x82\x37\x3c\x02\x01\x03" "jurisdictionC" "jurisdictionCountryName",
        // 1.3.6.1.4.1.311.60.2.1.3
    b"\x2b\x06\x01\x05\x05\x07\x09\x01" "id-pda-dateOfBirth" "id-pda-dateOfBirth",
        // 1.3.6.1.5.5.7.9.1
    b"\x2b\x06\x01\x05\x05\x07\x09\x02" "id-pda-placeOfBirth" "id-pda-placeOfBirth",
        // 1.3.6.1.5.5.7.9.2
    b"\x2b\x06\x01\x05\x05\x07\x09\x03" "id-pda-gender" "id-pda-gender", // 1.3.6.1.5.5.7.9.3
    b"\x2b\x06\x01\x05\x05\x07\x09\x04" "id-pda-countryOfCitizenship" "id-pda-countryOfCitizenship",
        // 1.3.6.1.5.5.7.9.4
    b"\x2b\x06\x01\x05\x05\x07\x09\x05" "id-pda-countryOfResidence"
        "id-pda-countryOfResidence" // 1.3.6.1.5.5.7.9.5
);
