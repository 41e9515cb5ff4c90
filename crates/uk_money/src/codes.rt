// The currency whose code has this number: its place in from_str's order, or 44 for none.
ghost use Rattle.std.specs.Prelude.{◌≡◌};
ghost use Rattle.uk_money.specs.Currencies.{currencies};
ghost use Rattle.uk_money.specs.Rows.{place_by_key};

#[tactic(auto, unfolding(crate::specs::Currencies::currencies, crate::specs::Rows::place_by_key))]
pub fn place(key: u64) -> usize
    ensures { result ≡ place_by_key currencies key }
{
    match key {
        21251393 => 0, // AED
        22237761 => 1, // ARS
        21255489 => 2, // AUD
        21779010 => 3, // BRL
        21250371 => 4, // CAD
        21383235 => 5, // CHF
        22039619 => 6, // CLP
        22629955 => 7, // CNY
        22040387 => 8, // COP
        21189187 => 9, // CRC
        1452794595652 => 10, // DINAR
        371915383131972 => 11, // DOLLAR
        21256772 => 12, // DZD
        22172997 => 13, // EUR
        22037063 => 14, // GBP
        21252936 => 15, // HKD
        22168649 => 16, // IDR
        22236233 => 17, // ILS
        22171209 => 18, // INR
        22630474 => 19, // JPY
        22499915 => 20, // KRW
        21256011 => 21, // KWD
        22305355 => 22, // KZT
        21911629 => 23, // MXN
        22174029 => 24, // MYR
        21712718 => 25, // NOK
        21256782 => 26, // NZD
        21906768 => 27, // PEN
        5625824592 => 28, // PESO
        22038608 => 29, // PHP
        21908560 => 30, // PLN
        22167889 => 31, // QAR
        1427025512786 => 32, // RIYAL
        21124434 => 33, // RUB
        22167891 => 34, // SAR
        21251923 => 35, // SGD
        21121108 => 36, // THB
        22630996 => 37, // TRY
        21256020 => 38, // TWD
        21512533 => 39, // UAH
        21254997 => 40, // USD
        22370645 => 41, // UYU
        21253718 => 42, // VND
        22167898 => 43, // ZAR
        _ => 44,
    }
}
