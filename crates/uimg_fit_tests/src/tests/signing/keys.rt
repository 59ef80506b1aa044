//! Public keys in PEM, by OpenSSL 3.0.

/// The key that signed the image: a SubjectPublicKeyInfo.
pub(super) const DEV: &str = "\
-----BEGIN PUBLIC KEY-----\n\
MIIBIjANBgkqhkiG9w0BAQEFAAOCAQ8AMIIBCgKCAQEA8SsFgq18nhKV+j4xGI15\n\
T+Xt/Z5hgWZ9/3lp2Za87RzfCc/fQhZSU6B+9FZ5ptZgUSIX/eHkENEuJk3fNs0U\n\
+lMTG0DDz0BUQo0JkbbPeOW+tuUnTtBoMke5UTtBXH/VcETNn3AJZRcKW3uRvkWu\n\
OU3RZeAhb+PrRqrJeQatvfTYWExq12oRubi3pJfkm8DhzwMIbsIbNtpfaGPTN8aQ\n\
huES/eQkSAaKbn/EjuCa7KjnUsTU64wwrHMXpil9Xya6dvuilNJUmg/NJpGw840N\n\
nd9C+Aq0+052hSlxEZCaz0NL6X+OlDfAITCXUFd88ndIQhb7qIzx3II1XFk5+3G/\n\
kQIDAQAB\n\
-----END PUBLIC KEY-----\n\
";

/// The same key: an RSAPublicKey.
pub(super) const DEV_RSA: &str = "\
-----BEGIN RSA PUBLIC KEY-----\n\
MIIBCgKCAQEA8SsFgq18nhKV+j4xGI15T+Xt/Z5hgWZ9/3lp2Za87RzfCc/fQhZS\n\
U6B+9FZ5ptZgUSIX/eHkENEuJk3fNs0U+lMTG0DDz0BUQo0JkbbPeOW+tuUnTtBo\n\
Mke5UTtBXH/VcETNn3AJZRcKW3uRvkWuOU3RZeAhb+PrRqrJeQatvfTYWExq12oR\n\
ubi3pJfkm8DhzwMIbsIbNtpfaGPTN8aQhuES/eQkSAaKbn/EjuCa7KjnUsTU64ww\n\
rHMXpil9Xya6dvuilNJUmg/NJpGw840Nnd9C+Aq0+052hSlxEZCaz0NL6X+OlDfA\n\
ITCXUFd88ndIQhb7qIzx3II1XFk5+3G/kQIDAQAB\n\
-----END RSA PUBLIC KEY-----\n\
";

/// Another key of 2048 bits.
pub(super) const OTHER: &str = "\
-----BEGIN PUBLIC KEY-----\n\
MIIBIjANBgkqhkiG9w0BAQEFAAOCAQ8AMIIBCgKCAQEAxFKhn/DXFaEXihRGcgrr\n\
1K0rfarUvKg8vtVPUYG9JqqgPc4AKRxIyumfQfcAG7EKrtyQl4AdOmvFLK5nrKKh\n\
KLO924XwezCR4gm4hwOOhPK1kDpfyA1rDhlzvvdG/VOE84fqcqJatE0j2soyv6HO\n\
DtNjz21DKsQ/5tkMgZGLypNcGfnvmMV3uCsIqhKr0USk07Y5xf+F4TRMRONNaAPw\n\
ymMZzqfR83fDP0tOEOE8IdpFXQkXiYe1TbK8IQg3sdMOZlGi+b6mi6npObjyDIk+\n\
dBVjBO9B51V9jNb1px8GSweM4MtFvrRViFNBctMFUVbmq3CGGihqGEKcg/OBZ6tP\n\
/QIDAQAB\n\
-----END PUBLIC KEY-----\n\
";

/// A key of 4096 bits.
pub(super) const LARGE: &str = "\
-----BEGIN PUBLIC KEY-----\n\
MIICIjANBgkqhkiG9w0BAQEFAAOCAg8AMIICCgKCAgEAoEybAC0s68M+STsymQyj\n\
DEHBY83t+DdRqxbkq2uvsi5Jl/R3l6oSk0UDcDu1c+xIq0GuBrQ88hksMt3Uq14l\n\
DUJ9h8djh4yhdnAVkaoopkNBPaA6x1mbGGdBWjIqT2nc0i6MDe6L69p7wGTOUIm2\n\
LPsjQZLasIq0A88ok0dA75cppq46KdWEiNTOeo0ysRVdwXPgafIMztMlxyU8tXIr\n\
gPhJiwbdvajmqE0HSyR/cnbrbM6vs+N4OZJmpHcl8ry9c0dNwM9Po6egU8OoP/cY\n\
TEVac4uiYL4EMcDw4tRItkap93+O5WXLNRIdT/uvvWPRIh5n6hNenNFl2c1Db/z0\n\
RXHHFQzi4dXmAqtkc/G5MOQ8+A74fBUktY7RFuWlbLKTwlmOTIIoZ7gCBV0TZS/G\n\
NIh1ICL4Zh9bp26DRpL4o0wMk/MTXWtlpxj2J0v9/93sJl51NVAJbuSWJBhfMUDv\n\
1OTHD6Q/Ruz0+B9Bt0fPyDjT/ZtiXyUzhOGB4VSW89WdDWnL9UQdX1siwWfxRVYr\n\
j4OC/7iUek0xz9v74Tl27FFgrRsTnWTy7aL5EORZva6OuA1a3YwMAu6WSkydbWJf\n\
6i3oHQoQDgtpohLFR0YxIjE9tN+YWVvZ5ZTl8cAuxu5akgl/KT3BcMz/zdqT/sea\n\
DQnxi75DNBmbEHbBTJgVh70CAwEAAQ==\n\
-----END PUBLIC KEY-----\n\
";

/// A key of 1024 bits.
pub(super) const SMALL: &str = "\
-----BEGIN PUBLIC KEY-----\n\
MIGfMA0GCSqGSIb3DQEBAQUAA4GNADCBiQKBgQCw4sNsTXzaHAVr/VHpuKmyEVUQ\n\
zjQLqbBy3t6gGecPk7Khya03m9e4NDOuyPyc8tiJ96wL1LNeDCZf1f7N6+RXoqO2\n\
Qh0Cl4VgGL51CFxvu2huemL+snyX7DpsH8WIHP2kEb8Wka/Mk6vZsHsV+2Oykd42\n\
NnjtXW5JNboy7gH7HQIDAQAB\n\
-----END PUBLIC KEY-----\n\
";

/// A key of an elliptic curve.
pub(super) const CURVE: &str = "\
-----BEGIN PUBLIC KEY-----\n\
MFkwEwYHKoZIzj0CAQYIKoZIzj0DAQcDQgAEqRQfO9eX7CS6RNEESccV7guPTFc5\n\
bewMiNIuBTO4F8Gf6sDyxuSqsPSPMxBdyHOig+/oBExxELq2i0WH9nc9Cw==\n\
-----END PUBLIC KEY-----\n\
";
