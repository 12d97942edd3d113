//! Types of contents.
ghost use Rattle.cose_iana.specs.Formats.{coap_content_formats};
ghost use Rattle.cose_iana.specs.Laws.{coap_content_formats_in_order};

use crate::number::{EnumI64, entry_with, rows};

/// Types of contents: the registry "CoAP Content-Formats" (RFC 7252, section 12.3). These are
/// names; nothing is read or compressed in them.
#[derive(Debug, Clone, Copy, PartialEq, Eq, PartialOrd, Ord, Hash)]
pub enum CoapContentFormat {
    /// `text/plain; charset=utf-8`.
    TextPlainUtf8 = 0,
    /// `application/cose; cose-type="cose-encrypt0"`.
    CoseEncrypt0 = 16,
    /// `application/cose; cose-type="cose-mac0"`.
    CoseMac0 = 17,
    /// `application/cose; cose-type="cose-sign1"`.
    CoseSign1 = 18,
    /// `application/ace+cbor`.
    AceCbor = 19,
    /// `image/gif`.
    ImageGif = 21,
    /// `image/jpeg`.
    ImageJpeg = 22,
    /// `image/png`.
    ImagePng = 23,
    /// `application/link-format`.
    LinkFormat = 40,
    /// `application/xml`.
    Xml = 41,
    /// `application/octet-stream`.
    OctetStream = 42,
    /// `application/exi`.
    Exi = 47,
    /// `application/json`.
    Json = 50,
    /// `application/json-patch+json`.
    JsonPatchJson = 51,
    /// `application/merge-patch+json`.
    MergePatchJson = 52,
    /// `application/cbor`.
    Cbor = 60,
    /// `application/cwt`.
    Cwt = 61,
    /// `application/multipart-core`.
    MultipartCore = 62,
    /// `application/cbor-seq`.
    CborSeq = 63,
    /// `application/edhoc+cbor-seq`.
    EdhocCborSeq = 64,
    /// `application/cid-edhoc+cbor-seq`.
    CidEdhocCborSeq = 65,
    /// `application/cose; cose-type="cose-encrypt"`.
    CoseEncrypt = 96,
    /// `application/cose; cose-type="cose-mac"`.
    CoseMac = 97,
    /// `application/cose; cose-type="cose-sign"`.
    CoseSign = 98,
    /// `application/cose-key`.
    CoseKey = 101,
    /// `application/cose-key-set`.
    CoseKeySet = 102,
    /// `application/senml+json`.
    SenmlJson = 110,
    /// `application/sensml+json`.
    SensmlJson = 111,
    /// `application/senml+cbor`.
    SenmlCbor = 112,
    /// `application/sensml+cbor`.
    SensmlCbor = 113,
    /// `application/senml-exi`.
    SenmlExi = 114,
    /// `application/sensml-exi`.
    SensmlExi = 115,
    /// `application/yang-data+cbor; id=sid`.
    YangData = 140,
    /// `application/coap-group+json`.
    CoapGroupJson = 256,
    /// `application/concise-problem-details+cbor`.
    ConciseProblemDetailsCbor = 257,
    /// `application/swid+cbor`.
    SwidCbor = 258,
    /// `application/pkixcmp`.
    PkixCmp = 259,
    /// `application/yang-sid+json`.
    YangSidJson = 260,
    /// `application/ace-groupcomm+cbor`.
    AceGroupcommCbor = 261,
    /// `application/ace-trl+cbor`.
    AceTrlCbor = 262,
    /// `application/eat+cwt`.
    EatCwt = 263,
    /// `application/eat+jwt`.
    EatJwt = 264,
    /// `application/eat-bun+cbor`.
    EatBunCbor = 265,
    /// `application/eat-bun+json`.
    EatBunJson = 266,
    /// `application/eat-ucs+cbor`.
    EatUcsCbor = 267,
    /// `application/eat-ucs+json`.
    EatUcsJson = 268,
    /// `application/dots+cbor`.
    DotsCbor = 271,
    /// `application/missing-blocks+cbor-seq`.
    MissingBlocksCborSeq = 272,
    /// `application/pkcs7-mime; smime-type=server-generated-key`.
    Pkcs7MimeSmimeTypeServerGeneratedKey = 280,
    /// `application/pkcs7-mime; smime-type=certs-only`.
    Pkcs7MimeSmimeTypeCertsOnly = 281,
    /// `application/pkcs7-mime; smime-type=CMC-Request`.
    Pkcs7MimeSmimeTypeCmcRequest = 282,
    /// `application/pkcs7-mime; smime-type=CMC-Response`.
    Pkcs7MimeSmimeTypeCmcResponse = 283,
    /// `application/pkcs8`.
    Pkcs8 = 284,
    /// `application/csrattrs`.
    Csrattrs = 285,
    /// `application/pkcs10`.
    Pkcs10 = 286,
    /// `application/pkix-cert`.
    PkixCert = 287,
    /// `application/aif+cbor`.
    AifCbor = 290,
    /// `application/aif+json`.
    AifJson = 291,
    /// `application/senml+xml`.
    SenmlXml = 310,
    /// `application/sensml+xml`.
    SensmlXml = 311,
    /// `application/senml-etch+json`.
    SenmlEtchJson = 320,
    /// `application/senml-etch+cbor`.
    SenmlEtchCbor = 322,
    /// `application/yang-data+cbor`.
    YangDataCbor = 340,
    /// `application/yang-data+cbor; id=name`.
    YangDataCborName = 341,
    /// `application/td+json`.
    TdJson = 432,
    /// `application/tm+json`.
    TmJson = 433,
    /// `application/uccs+cbor`.
    UccsCbor = 601,
    /// `application/vnd.ocf+cbor`.
    VndOcfCbor = 10000,
    /// `application/oscore`.
    Oscore = 10001,
    /// `application/javascript`.
    Javascript = 10002,
    /// `application/eat+cwt` in the profile of PSA.
    EatCwtTfm = 10003,
    /// `application/eat+cwt` in the earlier profile of PSA.
    EatCwtLegacy = 10004,
    /// `application/json`, compressed by deflate.
    JsonDeflate = 11050,
    /// `application/cbor`, compressed by deflate.
    CborDeflate = 11060,
    /// `application/vnd.oma.lwm2m+tlv`.
    VndOmaLwm2mTlv = 11542,
    /// `application/vnd.oma.lwm2m+json`.
    VndOmaLwm2mJson = 11543,
    /// `application/vnd.oma.lwm2m+cbor`.
    VndOmaLwm2mCbor = 11544,
    /// `text/css`.
    TextCss = 20000,
    /// `image/svg+xml`.
    ImageSvgXml = 30000,
}

/// Each entry, by rising numbers.
static COAP_CONTENT_FORMATS: &[(CoapContentFormat, i64)] = rows![CoapContentFormat:
    TextPlainUtf8, CoseEncrypt0, CoseMac0, CoseSign1, AceCbor, ImageGif, ImageJpeg, ImagePng,
    LinkFormat, Xml, OctetStream, Exi, Json, JsonPatchJson, MergePatchJson, Cbor, Cwt,
    MultipartCore, CborSeq, EdhocCborSeq, CidEdhocCborSeq, CoseEncrypt, CoseMac, CoseSign, CoseKey,
    CoseKeySet, SenmlJson, SensmlJson, SenmlCbor, SensmlCbor, SenmlExi, SensmlExi, YangData,
    CoapGroupJson, ConciseProblemDetailsCbor, SwidCbor, PkixCmp, YangSidJson, AceGroupcommCbor,
    AceTrlCbor, EatCwt, EatJwt, EatBunCbor, EatBunJson, EatUcsCbor, EatUcsJson, DotsCbor,
    MissingBlocksCborSeq, Pkcs7MimeSmimeTypeServerGeneratedKey, Pkcs7MimeSmimeTypeCertsOnly,
    Pkcs7MimeSmimeTypeCmcRequest, Pkcs7MimeSmimeTypeCmcResponse, Pkcs8, Csrattrs, Pkcs10, PkixCert,
    AifCbor, AifJson, SenmlXml, SensmlXml, SenmlEtchJson, SenmlEtchCbor, YangDataCbor,
    YangDataCborName, TdJson, TmJson, UccsCbor, VndOcfCbor, Oscore, Javascript, EatCwtTfm,
    EatCwtLegacy, JsonDeflate, CborDeflate, VndOmaLwm2mTlv, VndOmaLwm2mJson, VndOmaLwm2mCbor,
    TextCss, ImageSvgXml,
];

impl EnumI64 for CoapContentFormat {
    ghost number = { coap_content_formats.number };

    ghost is_registered = { coap_content_formats.is_registered };

    ghost entry = { coap_content_formats.entry };

    ghost there_and_back = { coap_content_formats.there_and_back };

    ghost back_and_there = { coap_content_formats.back_and_there };

    ghost in_order = { coap_content_formats_in_order };

    fn from_i64(i: i64) -> Option<CoapContentFormat> {
        entry_with(COAP_CONTENT_FORMATS, i)
    }

    #[tactic(auto, unfolding(crate::specs::Formats::coap_content_formats))]
    fn to_i64(self) -> i64 {
        self as i64
    }
}
