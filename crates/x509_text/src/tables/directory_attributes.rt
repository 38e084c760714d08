//! Name attributes that X.520 defines, up to 2.5.4.31.

use super::{Object, objects};

/// Name attributes that X.520 defines, up to 2.5.4.31.
#[rattlefmt::skip]
pub(crate) static DIRECTORY_ATTRIBUTES: &[Object] = objects!(
    b"\x55\x04\x03" "CN" "commonName", // 2.5.4.3
    b"\x55\x04\x04" "SN" "surname", // 2.5.4.4
    b"\x55\x04\x05" "serialNumber" "serialNumber", // 2.5.4.5
    b"\x55\x04\x06" "C" "countryName", // 2.5.4.6
    b"\x55\x04\x07" "L" "localityName", // 2.5.4.7
    b"\x55\x04\x08" "ST" "stateOrProvinceName", // 2.5.4.8
    b"\x55\x04\x09" "street" "streetAddress", // 2.5.4.9
    b"\x55\x04\x0a" "O" "organizationName", // 2.5.4.10
    b"\x55\x04\x0b" "OU" "organizationalUnitName", // 2.5.4.11
    b"\x55\x04\x0c" "title" "title", // 2.5.4.12
    b"\x55\x04\x0d" "description" "description", // 2.5.4.13
    b"\x55\x04\x0e" "searchGuide" "searchGuide", // 2.5.4.14
    b"\x55\x04\x0f" "businessCategory" "businessCategory", // 2.5.4.15
    b"\x55\x04\x10" "postalAddress" "postalAddress", // 2.5.4.16
    b"\x55\x04\x11" "postalCode" "postalCode", // 2.5.4.17
    b"\x55\x04\x12" "postOfficeBox" "postOfficeBox", // 2.5.4.18
    b"\x55\x04\x13" "physicalDeliveryOfficeName" "physicalDeliveryOfficeName", // 2.5.4.19
    b"\x55\x04\x14" "telephoneNumber" "telephoneNumber", // 2.5.4.20
    b"\x55\x04\x15" "telexNumber" "telexNumber", // 2.5.4.21
    b"\x55\x04\x16" "teletexTerminalIdentifier" "teletexTerminalIdentifier", // 2.5.4.22
    b"\x55\x04\x17" "facsimileTelephoneNumber" "facsimileTelephoneNumber", // 2.5.4.23
    b"\x55\x04\x18" "x121Address" "x121Address", // 2.5.4.24
    b"\x55\x04\x19" "internationaliSDNNumber" "internationaliSDNNumber", // 2.5.4.25
    b"\x55\x04\x1a" "registeredAddress" "registeredAddress", // 2.5.4.26
    b"\x55\x04\x1b" "destinationIndicator" "destinationIndicator", // 2.5.4.27
    b"\x55\x04\x1c" "preferredDeliveryMethod" "preferredDeliveryMethod", // 2.5.4.28
    b"\x55\x04\x1d" "presentationAddress" "presentationAddress", // 2.5.4.29
    b"\x55\x04\x1e" "supportedApplicationContext" "supportedApplicationContext", // 2.5.4.30
    b"\x55\x04\x1f" "member" "member" // 2.5.4.31
);
