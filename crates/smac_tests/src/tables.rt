// The published vectors of SMAC-1, SMAC-3/4 and SMAC-1/2, in hexadecimal.

pub(crate) struct Vector {
    pub(crate) key: &'static str,
    pub(crate) iv: &'static str,
    pub(crate) header: &'static str,
    pub(crate) body: &'static str,
    // A1, A2 and A3 after load
    pub(crate) loaded: [&'static str; 3],
    // after the framed message
    pub(crate) led: [&'static str; 3],
    // and after finish
    pub(crate) finished: [&'static str; 3],
}

pub(crate) static SMAC_1: [Vector; 4] = [
    Vector {
        key: "0000000000000000000000000000000000000000000000000000000000000000",
        iv: "00000000000000000000000000000000",
        header: "",
        body: "",
        loaded: [
            "fa4e8bba5ba379be90a7eed80012035b",
            "8c99e70195ba79b6e13f0f566ad45c60",
            "59ec45581da5089ee4ad8e4de2dab108",
        ],
        led: [
            "d528ed1b880e817505687159881fa292",
            "55783c2719f8949f13003a13609d98fe",
            "69dd1795fd624fb9e98151532ab55327",
        ],
        finished: [
            "aa8c5831e0ce879108b7c2631e2e9bf9",
            "d82c49ea4681ca1fba9793495f9a6085",
            "39cebe8612c80f7060cf18412e9892ee",
        ],
    },
    Vector {
        key: "0100000000000000000000000000000000000000000000000000000000000000",
        iv: "02000000000000000000000000000000",
        header: "03",
        body: "",
        loaded: [
            "42e3c1dfbd969fa104029a30c493fa26",
            "3afcc4b71045505eb1d10949f9d6de13",
            "25c5ffc2ab2b5b156243fcf0e56abe33",
        ],
        led: [
            "61dc6ed4a760661104c3c0a75e45bea8",
            "e0647e6fb9f478dcb43a74c1964d44cb",
            "4834ed2458afa3e29d2e4cac5b100752",
        ],
        finished: [
            "130e942c5b1f89235ec69ac077f69c91",
            "a13523df2837edd80f6b56aa611780b3",
            "8a7b4be48f4b4bdeb7d5af8c826d816d",
        ],
    },
    Vector {
        key: "b0b1b2b3b4b5b6b7b8b9babbbcbdbebfc0c1c2c3c4c5c6c7c8c9cacbcccdcecf",
        iv: "d0d1d2d3d4d5d6d7d8d9dadbdcdddedf",
        header: "e0e1e2e3e4e5e6e7e8e9eaebecdddeef",
        body: "f0f1f2f3f4f5f6f7f8f9fafbfcfdfeff",
        loaded: [
            "db1d65de28122317158dab00045f225c",
            "e111bc2bc547d01915836f951f475f84",
            "00917cc966f0f38407b26d48cf7c06f8",
        ],
        led: [
            "0f0f184b4a3a250aefb38201ce2c599c",
            "0f1a78a3a9a90063e821f0ed82528012",
            "56b8b17f40bfa916e95a199fddb99860",
        ],
        finished: [
            "a9d26cf8c375b66fb528d3e28075b8cc",
            "613fad899e9451481aebd17a5c64dd18",
            "9ac4ac2e1874a4e1cf9b42921538a9a1",
        ],
    },
    Vector {
        key: "000102030405060708090a0b0c0d0e0f101112131415161718191a1b1c1d1e1f",
        iv: "fffefdfcfbfaf9f8f7f6f5f4f3f2f1f0",
        header: "0102030405060708090a0b0c0d0e0f10111213",
        body: "1415161718191a1b1c1d1e1f20",
        loaded: [
            "5cf14892aa701c6c0f7b8d57960c394b",
            "ee3108258530fc598ea6c3ec572fdc59",
            "45cc6d77d25628a9be385a784ba1ba14",
        ],
        led: [
            "50622a64fc701b1d8e6d9f12dcf5b77c",
            "d89d7b1468945974517460c756d2163f",
            "45734e188ed34dae7831d3596bfa47c7",
        ],
        finished: [
            "8298b1ab905476e42476b378d614e808",
            "c344521699482d93283c03ec7c3db8b5",
            "c7776462168998ee280306f92533097c",
        ],
    },
];

pub(crate) static SMAC_34: [Vector; 4] = [
    Vector {
        key: "0000000000000000000000000000000000000000000000000000000000000000",
        iv: "00000000000000000000000000000000",
        header: "",
        body: "",
        loaded: [
            "103448ab430dacc5e1b83803ed27fe80",
            "7c90c3d8c955eb3a8398a15f9230fb56",
            "ae2580ee481abd5eb7732f62a9a6ed37",
        ],
        led: [
            "6416618e3b9636d28156b54f343d43eb",
            "27bb5f145976bd3d502b61da68b6f980",
            "bc144087052126f761162f1e1860acdd",
        ],
        finished: [
            "dfa6f59c060636cfb5859d4ca5cabcf7",
            "66496235b17d4c422cce5f429d456c91",
            "3f4113bc6d2765acbb5e8372ca9941f1",
        ],
    },
    Vector {
        key: "0100000000000000000000000000000000000000000000000000000000000000",
        iv: "02000000000000000000000000000000",
        header: "03",
        body: "",
        loaded: [
            "a31a8cd8b9c6d724d49b5b75ff674164",
            "5fdbff2fc9aaf43e32eff5a9ff074233",
            "1eebdf0bebe4706bb83ff6dacf73cf24",
        ],
        led: [
            "0ab03658d2b088ee90990f98e09ce3f9",
            "32bff6692503a3126bb1938902b13eb7",
            "3957c56551506aa6c6b88c8fea46eb84",
        ],
        finished: [
            "f2337eb05487375b6ef6f36467079380",
            "39bffe0e2c3311f751698e64d04e5270",
            "c0995e8354a5a822579406c049f20a6f",
        ],
    },
    Vector {
        key: "b0b1b2b3b4b5b6b7b8b9babbbcbdbebfc0c1c2c3c4c5c6c7c8c9cacbcccdcecf",
        iv: "d0d1d2d3d4d5d6d7d8d9dadbdcdddedf",
        header: "e0e1e2e3e4e5e6e7e8e9eaebecdddeef",
        body: "f0f1f2f3f4f5f6f7f8f9fafbfcfdfeff",
        loaded: [
            "30b28ea9d76b44d1742121c568434562",
            "8479593073115ba2bd12a38566664320",
            "c6567adeff9f3efaa0fba46ff273b8d3",
        ],
        led: [
            "135b814d8150f1cf5acf7bcfe51eb07c",
            "72132ecf8b8af1540cf28b27c466b80d",
            "753bdea89436d3da5249e6178c92787c",
        ],
        finished: [
            "98d5fef20ce2c74d742aedb125813eda",
            "db131cb3ffbca2edaea478935818675a",
            "6bb8f5a9837bc59f4d45fda76031cf53",
        ],
    },
    Vector {
        key: "000102030405060708090a0b0c0d0e0f101112131415161718191a1b1c1d1e1f",
        iv: "fffefdfcfbfaf9f8f7f6f5f4f3f2f1f0",
        header: "0102030405060708090a0b0c0d0e0f10111213",
        body: "1415161718191a1b1c1d1e1f20",
        loaded: [
            "b71a78eba6e1a2026f0b872df3822993",
            "0646fea494d82018e33d52b3bdb7195e",
            "3455a294e711e210ccb889fbc998296d",
        ],
        led: [
            "fa9e30f33972e30bc357f3491f76ccc3",
            "cbdbbbdf384f34f1ef48fd7fd31f7da7",
            "e9cded826beb7ee220db2fdf34bf8e55",
        ],
        finished: [
            "849ccaa11b5564ba1572b2b90d73bad3",
            "696ed0a99e04843a596da5b6257ddbde",
            "656d19041dbb045835c3423bc492614f",
        ],
    },
];

pub(crate) static SMAC_12: [Vector; 4] = [
    Vector {
        key: "0000000000000000000000000000000000000000000000000000000000000000",
        iv: "00000000000000000000000000000000",
        header: "",
        body: "",
        loaded: [
            "3aa2524182fa6414232eb7fbf714b676",
            "57a4aadd992e1ec744c782b8518dc5c5",
            "3e7205097f54e29d30e9926c0df8eae2",
        ],
        led: [
            "ac34870d0749a854bbf718696f119dae",
            "b91996987c7048639bd66017d5d657ad",
            "28c3fbb188a81b9adf0e28cf8d4bdabb",
        ],
        finished: [
            "8849953a08db76e34adcc6afc778ccd0",
            "670622e02ad68585b9904c1c8f334551",
            "7d2bd895626d99dd40c934d985133f64",
        ],
    },
    Vector {
        key: "0100000000000000000000000000000000000000000000000000000000000000",
        iv: "02000000000000000000000000000000",
        header: "03",
        body: "",
        loaded: [
            "e2fcc564a8ddedc1535750cba4e4157d",
            "60e13c40921c800c91dc4c1fb859e6d3",
            "3e1880f99a4660fbb1c37fca59e67c39",
        ],
        led: [
            "25c05fdb338576dfc722962fe2fb4d36",
            "10b25a5003323d6119b83916e248fff2",
            "ada1eb31fff9e639c97ddd723bfe9066",
        ],
        finished: [
            "79ee8bfa2519397d64f76aece69e3fbb",
            "e0a333943d50cd2c316df0a5b64b7621",
            "70875c285d9b39be564f6b9a7a0ad1e8",
        ],
    },
    Vector {
        key: "b0b1b2b3b4b5b6b7b8b9babbbcbdbebfc0c1c2c3c4c5c6c7c8c9cacbcccdcecf",
        iv: "d0d1d2d3d4d5d6d7d8d9dadbdcdddedf",
        header: "e0e1e2e3e4e5e6e7e8e9eaebecdddeef",
        body: "f0f1f2f3f4f5f6f7f8f9fafbfcfdfeff",
        loaded: [
            "b5ebedac6bbd4dab5623a6ce3b0edc0e",
            "b4a27544a1ac33d0a796f2ff3fcec3cd",
            "5b81965aad89aac22854a38c43f715c9",
        ],
        led: [
            "f12a8a109980d7bfff6de3e1cf4b6d22",
            "c01659c7eb5fb5444cf52782b64c42e8",
            "c4dec346feb3e319136148bf3a89107f",
        ],
        finished: [
            "4ab7f063c8607fca084b27bb1f4adc70",
            "80ea3bd5074240bd8e66ae69689999e7",
            "53e2def417c16f53c4cec2733774e93b",
        ],
    },
    Vector {
        key: "000102030405060708090a0b0c0d0e0f101112131415161718191a1b1c1d1e1f",
        iv: "fffefdfcfbfaf9f8f7f6f5f4f3f2f1f0",
        header: "0102030405060708090a0b0c0d0e0f10111213",
        body: "1415161718191a1b1c1d1e1f20",
        loaded: [
            "06550fdc348987c652d3cf0565fb6a6a",
            "fcfb2c8d45a30d792688fdfae2ca7d06",
            "453d865e1e9885c50c390971bb99c2c0",
        ],
        led: [
            "1115965f0d8fe9d356e64b5dd64c2ac7",
            "96e8fa2465d4aa40738e62771298ff2b",
            "6912b535473ef800eb95c37edc132530",
        ],
        finished: [
            "81db762f94f8c134bb37482afc0f0f4f",
            "f7c36bbf8344906e17cacb970e375026",
            "dc06992b750e0866f65479edd02e3ca4",
        ],
    },
];
